// The envelope's tick for a caller that keeps the record (the Rust's `EnvGen::tick` with `&mut self`).

#![tactic(auto)]

ghost use Rattle.std.specs.Prelude.{◌≡◌};
ghost use Rattle.envelope.specs.Ticks.{ticked};

use envelope::EnvGen;

// One sample further, in place: the by-value tick of what the reference holds, stored back. The reply is the sample.
pub fn tick(env: &mut EnvGen) -> f32
    ensures { (env.new ≡ ticked env.old) × (result ≡ (ticked env.old).level) }
{
    *env = env.tick();
    env.level
}
