// The lines of the sheet, written into a lent buffer. There must be room for what a pen writes. No `write!`: what each byte is, is proved.
ghost use Rattle.std.specs.Prelude.{◌/◌, ◌%◌, ◌<◌, ◌≡◌, ◌≤◌, ◌+◌, ◌-◌, [], ◌∷◌, length};
ghost use Rattle.std.proofs.lemmas.List.Edits.{sets};
ghost use Rattle.lines.specs.Text as Text;
ghost use Rattle.sheet_text.specs.Written.{Wrote, Fits};

use words::Standing;

const SPACE: u8 = b' ';

const LINE_FEED: u8 = b'\n';

// The ASCII code of a digit; letters are small.
#[tactic(auto, unfolding(lines::specs::Text::glyph))]
fn glyph(d: u32) -> u8
    requires { d < 16 }
    ensures { result ≡ Text.glyph d }
{
    if d < 10 { 48 + d as u8 } else { 87 + d as u8 }
}

// Two digits of a number below a hundred, the first a zero where it has only one. Answers the place behind them. No pen, as `put_decimal`.
#[tactic(auto, using(crate::proofs::Decimals::writing_digits))]
fn put_two(out: &mut [u8], at: usize, n: u32) -> usize
    requires { (n < 100) × (at + 2 ≤ length out.old) }
    ensures place { result ≡ at + 2 }
    ensures bytes { out.new ≡ sets out.old at (Text.glyph (n / 10) ∷ Text.glyph (n % 10) ∷ []) }
{
    out[at] = glyph(n / 10);
    out[at + 1] = glyph(n % 10);
    at + 2
}

// A number in decimal without leading zeros, two digits at a time, from a place on. Answers the place behind it.
// It takes no pen: as it calls itself, a pen would lie in memory and no longer in registers, which costs instructions at each digit.
#[tactic(auto, using(crate::proofs::Decimals::writing_digits))]
fn put_decimal(out: &mut [u8], at: usize, n: u32) -> usize
    requires { at + length (Text.decimal n) ≤ length out.old }
    ensures place { result ≡ at + length (Text.decimal n) }
    ensures bytes { out.new ≡ sets out.old at (Text.decimal n) }
{
    if n < 10 {
        out[at] = glyph(n);
        return at + 1;
    }
    if n < 100 {
        return put_two(out, at, n);
    }
    let last = put_decimal(out, at, n / 100);
    put_two(out, last, n % 100)
}

// Writes into a lent buffer, from the front on.
#[derive(Drop)]
pub(crate) struct Pen<'a> {
    pub(crate) out: &'a mut [u8],
    // The place behind what is written.
    pub(crate) at: usize,
}

impl<'a> Pen<'a> {
    // How many bytes there is room for.
    pub(crate) fn room(&self) -> usize
        requires { self.now.at ≤ length self.now.out.now }
        ensures { result ≡ length self.now.out.now - self.now.at }
    {
        self.out.len() - self.at
    }

    fn byte(&mut self, b: u8)
        requires { Fits self.old (b ∷ []) }
        ensures { Wrote self.old self.new (b ∷ []) }
    {
        self.out[self.at] = b;
        self.at += 1;
    }

    #[tactic(auto, using(crate::proofs::Writing::writing), unfolding(lines::specs::Text::field))]
    fn field(&mut self, n: u32)
        requires { Fits self.old (Text.field n) }
        ensures { Wrote self.old self.new (Text.field n) }
    {
        self.byte(SPACE);
        self.at = put_decimal(&mut *self.out, self.at, n);
    }

    // A set of processes: four hex digits.
    #[tactic(auto, using(crate::proofs::Writing::writing), unfolding(lines::specs::Text::set_field, lines::specs::Text::hex))]
    fn set(&mut self, s: u32)
        requires { Fits self.old (Text.set_field s) }
        ensures { Wrote self.old self.new (Text.set_field s) }
    {
        self.byte(SPACE);
        self.byte(glyph(s / 4096 % 16));
        self.byte(glyph(s / 256 % 16));
        self.byte(glyph(s / 16 % 16));
        self.byte(glyph(s % 16));
    }

    // A vote or a decision, and a dash where it is absent.
    #[tactic(auto, using(crate::proofs::Writing::writing), unfolding(lines::specs::Text::choice_field))]
    fn choice(&mut self, c: Option<u32>)
        requires { Fits self.old (Text.choice_field c) }
        ensures { Wrote self.old self.new (Text.choice_field c) }
    {
        match c {
            Some(x) => self.field(x),
            None => {
                self.byte(SPACE);
                self.byte(b'-');
            }
        }
    }

    // An accepted step: the process, the round finished, who was heard.
    #[tactic(auto, using(crate::proofs::Writing::writing), unfolding(lines::specs::Text::h_line))]
    pub(crate) fn h_line(&mut self, p: u8, round: u32, heard: u32)
        requires { Fits self.old (Text.h_line p round heard) }
        ensures { Wrote self.old self.new (Text.h_line p round heard) }
    {
        self.byte(b'h');
        self.field(u32::from(p));
        self.field(round);
        self.set(heard);
        self.byte(LINE_FEED);
    }

    // Of a process: its round, the counts S, C, P, I, and its reach.
    #[tactic(auto, using(crate::proofs::Writing::writing), unfolding(lines::specs::Text::w_line))]
    pub(crate) fn w_line(&mut self, p: u8, s: Standing)
        requires { Fits self.old (Text.w_line p s) }
        ensures { Wrote self.old self.new (Text.w_line p s) }
    {
        self.byte(b'w');
        self.field(u32::from(p));
        self.field(s.round);
        self.field(s.sending);
        self.field(s.collecting);
        self.field(s.pending);
        self.field(s.idle);
        self.set(s.reach);
        self.byte(LINE_FEED);
    }

    // Of a process: its value, vote and decision.
    #[tactic(auto, using(crate::proofs::Writing::writing), unfolding(lines::specs::Text::v_line))]
    pub(crate) fn v_line(&mut self, p: u8, s: Standing)
        requires { Fits self.old (Text.v_line p s) }
        ensures { Wrote self.old self.new (Text.v_line p s) }
    {
        self.byte(b'v');
        self.field(u32::from(p));
        self.field(s.value);
        self.choice(s.vote);
        self.choice(s.decision);
        self.byte(LINE_FEED);
    }

    // The accepted events, and the number: document 01's line ends in one, and so does the definition.
    #[tactic(auto, using(crate::proofs::Writing::writing), unfolding(lines::specs::Text::e_line))]
    pub(crate) fn e_line(&mut self, events: u32, number: u32)
        requires { Fits self.old (Text.e_line events number) }
        ensures { Wrote self.old self.new (Text.e_line events number) }
    {
        self.byte(b'e');
        self.field(events);
        self.field(number);
        self.byte(LINE_FEED);
    }
}
