// The forms of the script program, read from a line. A reader of a part gives what is behind the part too.

#![tactic(auto)]

ghost use Rattle.std.specs.Prelude.{◌≡◌};
ghost use Rattle.text.specs.Read.{seen};
ghost use Rattle.forms.specs.Forms.{FormAs};
ghost use Rattle.forms.specs.Named.{amp_of, modulation_of, design_of};
ghost use Rattle.forms.specs.Parts.{LedDecimal, LedWord, ModeAs, AmpAs, ModulationAs, DesignAs, OnAs};

use design::{Adsr, InstrumentDesign, Modulation, PlayMode};

// The forms are twins of the design's structs, and hold a float's bits: the line's very text is promised, and a float may
// lose a NaN's bits.

// Seconds, seconds, a level, seconds.
#[derive(Clone, Copy)]
pub struct AmpForm {
    pub a: u32,
    pub d: u32,
    pub s: u32,
    pub r: u32,
}

#[derive(Clone, Copy)]
pub struct ModulationForm {
    pub vibrato_rate: u32,
    pub vibrato_cents: u32,
    pub tremolo_rate: u32,
    pub tremolo_depth: u32,
    pub filter_rate: u32,
    pub filter_octaves: u32,
}

// A design line, in its order.
#[derive(Clone, Copy)]
pub struct DesignForm {
    pub rate: u32,
    pub max: u32,
    pub mode: PlayMode,
    pub unison: u32,
    pub width: u32,
    pub amp: AmpForm,
    pub glide: u32,
    pub modulation: ModulationForm,
}

impl From<AmpForm> for Adsr {
    ghost from_gives = { λ f r. r ≡ amp_of f };

    fn from(f: AmpForm) -> Adsr {
        Adsr {
            a: float32::from_bits(f.a),
            d: float32::from_bits(f.d),
            s: float32::from_bits(f.s),
            r: float32::from_bits(f.r),
        }
    }
}

impl From<ModulationForm> for Modulation {
    ghost from_gives = { λ f r. r ≡ modulation_of f };

    fn from(f: ModulationForm) -> Modulation {
        Modulation {
            vibrato_rate: float32::from_bits(f.vibrato_rate),
            vibrato_cents: float32::from_bits(f.vibrato_cents),
            tremolo_rate: float32::from_bits(f.tremolo_rate),
            tremolo_depth: float32::from_bits(f.tremolo_depth),
            filter_rate: float32::from_bits(f.filter_rate),
            filter_octaves: float32::from_bits(f.filter_octaves),
        }
    }
}

// The design that the line names.
impl From<DesignForm> for InstrumentDesign {
    ghost from_gives = { λ f r. r ≡ design_of f };

    fn from(f: DesignForm) -> InstrumentDesign {
        InstrumentDesign {
            sample_rate: f.rate,
            max_voices: f.max,
            mode: f.mode,
            unison: f.unison,
            unison_width: float32::from_bits(f.width),
            amp: Adsr::from(f.amp),
            glide: float32::from_bits(f.glide),
            modulation: Modulation::from(f.modulation),
        }
    }
}

#[derive(Clone, Copy)]
pub struct OnForm {
    pub note: u8,
    pub velocity: u32,
    pub built: bool,
}

#[derive(Clone, Copy)]
pub enum Form {
    Design(DesignForm),
    On(OnForm),
    Voices,
}

fn led_decimal<'a>(line: &'a [u8], lead: &[u8], most: u64) -> Option<(u64, &'a [u8])>
    ensures { LedDecimal lead.now most line.now (seen result) }
{
    text::decimal(line.strip_prefix(lead)?, most)
}

fn led_number<'a>(line: &'a [u8], lead: &[u8]) -> Option<(u32, &'a [u8])>
    ensures { LedDecimal lead.now u32.MAX line.now (seen result) }
{
    let (n, rest) = led_decimal(line, lead, u32::MAX as u64)?;
    Some((n as u32, rest))
}

fn led_word<'a>(line: &'a [u8], lead: &[u8]) -> Option<(u32, &'a [u8])>
    ensures { LedWord lead.now line.now (seen result) }
{
    text::word(line.strip_prefix(lead)?)
}

fn mode(line: &[u8]) -> Option<(PlayMode, &[u8])>
    ensures { ModeAs line.now (seen result) }
{
    let word = line.strip_prefix(b") (mode ")?;
    if let Some(rest) = word.strip_prefix(b"poly") {
        return Some((PlayMode::Poly, rest));
    }
    if let Some(rest) = word.strip_prefix(b"mono") {
        return Some((PlayMode::Mono { legato: false }, rest));
    }
    let rest = word.strip_prefix(b"legato")?;
    Some((PlayMode::Mono { legato: true }, rest))
}

fn amp(line: &[u8]) -> Option<(AmpForm, &[u8])>
    ensures { AmpAs line.now (seen result) }
{
    let (a, rest) = led_word(line, b") (amp ")?;
    let (d, rest) = led_word(rest, b" ")?;
    let (s, rest) = led_word(rest, b" ")?;
    let (r, rest) = led_word(rest, b" ")?;
    Some((AmpForm { a, d, s, r }, rest))
}

fn modulation(line: &[u8]) -> Option<(ModulationForm, &[u8])>
    ensures { ModulationAs line.now (seen result) }
{
    let (vibrato_rate, rest) = led_word(line, b") (mod ")?;
    let (vibrato_cents, rest) = led_word(rest, b" ")?;
    let (tremolo_rate, rest) = led_word(rest, b" ")?;
    let (tremolo_depth, rest) = led_word(rest, b" ")?;
    let (filter_rate, rest) = led_word(rest, b" ")?;
    let (filter_octaves, rest) = led_word(rest, b" ")?;
    let form = ModulationForm {
        vibrato_rate,
        vibrato_cents,
        tremolo_rate,
        tremolo_depth,
        filter_rate,
        filter_octaves,
    };
    Some((form, rest))
}

fn on_line(line: &[u8]) -> Option<OnForm>
    ensures { OnAs line.now result }
{
    let (note, rest) = led_decimal(line, b"(on ", 255)?;
    let (velocity, rest) = led_word(rest, b" ")?;
    let (built, rest) = led_decimal(rest, b" ", 1)?;
    if rest != b")".as_slice() {
        return None;
    }
    Some(OnForm {
        note: note as u8,
        velocity,
        built: built == 1,
    })
}

fn design_line(line: &[u8]) -> Option<DesignForm>
    ensures { DesignAs line.now result }
{
    let (rate, rest) = led_number(line, b"(design (rate ")?;
    let (max, rest) = led_number(rest, b") (max ")?;
    let (mode, rest) = mode(rest)?;
    let (unison, rest) = led_number(rest, b") (unison ")?;
    let (width, rest) = led_word(rest, b" ")?;
    let (amp, rest) = amp(rest)?;
    let (glide, rest) = led_word(rest, b") (glide ")?;
    let (modulation, rest) = modulation(rest)?;
    if rest != b"))".as_slice() {
        return None;
    }
    Some(DesignForm {
        rate,
        max,
        mode,
        unison,
        width,
        amp,
        glide,
        modulation,
    })
}

// The form whose text the line is.
pub fn read(line: &[u8]) -> Option<Form>
    ensures { FormAs line.now result }
{
    if line.len() > 256 {
        return None;
    }
    if let Some(form) = design_line(line) {
        return Some(Form::Design(form));
    }
    if let Some(form) = on_line(line) {
        return Some(Form::On(form));
    }
    if line == b"(voices)".as_slice() {
        return Some(Form::Voices);
    }
    None
}
