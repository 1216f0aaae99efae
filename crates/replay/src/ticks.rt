// Calls of the envelope that stands by itself.

use crate::ask::EnvCall;
use crate::{Session, said};
use envelope::EnvGen;
use patterns::{Page, bits, sums};

// The envelope after n ticks, and the checksum of its levels.
fn ticked(mut env: EnvGen, n: u32) -> (EnvGen, u64) {
    let mut sum = sums::BASIS;
    for _ in 0..n {
        env = env.tick();
        sum = sums::with_float(sum, env.level);
    }
    (env, sum)
}

impl Session {
    fn tick(&mut self, n: u32, page: &mut Page) {
        let (env, sum) = ticked(self.env, n);
        self.env = env;
        let numbers = [
            sum,
            env.stage as u64,
            bits(env.level),
            bits(env.rel_from),
            u64::from(env.faded()),
        ];
        page.put(b"(ticked X D W W D)\n", &numbers);
    }

    fn gated(&mut self, env: EnvGen, page: &mut Page) {
        self.env = env;
        said::done(page);
    }

    pub fn env_call(&mut self, call: EnvCall, page: &mut Page) {
        match call {
            EnvCall::New { rate, a, d, s, r } => {
                let made = EnvGen::new(a, d, s, r, rate);
                self.env = made.state;
                said::start(page, made.reply);
            }
            EnvCall::On => self.gated(self.env.gate_on(), page),
            EnvCall::Off => self.gated(self.env.gate_off(), page),
            EnvCall::Kill => self.gated(self.env.kill(), page),
            EnvCall::Ticks(n) => self.tick(n, page),
        }
    }
}
