//! The tool's own line, put without memory.
ghost use Rattle.std.specs.Prelude.{◌≡◌, ◌<◌, ◌≤◌, ◌++◌, [], ◌==◌, drop, length, flat_map, decimal};
ghost use Rattle.std.specs.Prelude.{OnOk, OnErr};
ghost use Rattle.std.specs.List.{prefix_len};
ghost use Rattle.sb_outside.specs.Content.{gained, GainsPart};
ghost use Rattle.sb_outside.specs.Faults.{CountsFaults};
ghost use Rattle.sbcets_core.specs.Outcomes.{HasLine, tool_line, refusal_line, trap_name, line_of, plain_line};
ghost use Rattle.sbcets_core.specs.Outcomes.{at_line, numbered_line, hexadecimal, sixteen_digits, zeros_in_front};
ghost use Rattle.sbcets_core.specs.Outcomes.{digit_at, hexadecimal_digit, counted_name};
ghost use Rattle.sbcets_core.specs.Rules.{rule_number};

use crate::outcome::{Outcome, ReadFault};
use crate::refusal::{Counted, SourceRefusal};
use c_faults::{Fault, Rule};
use c_pre::PreFault;
use itoa::Buffer;
use rv_listing::ListFault;
use rv_sim::TrapKind;
use sb_base::Line;
use sb_outside::{Failed, Sink};

/// Puts the line of an outcome, where it has one.
pub fn report<S: Sink>(sink: &mut S, outcome: &Outcome) -> Result<(), Failed>
    ensures ok { OnOk result (S.taken sink.new ≡ gained (S.taken sink.old) (tool_line outcome.now)) }
    ensures err { OnErr result (GainsPart (S.taken sink.old) (S.taken sink.new) (tool_line outcome.now)) }
    ensures lined { OnErr result (HasLine outcome.now) }
    ensures cause { CountsFaults (S.faults sink.old) (S.faults sink.new) result }
{
    match outcome {
        Outcome::Exited(_) | Outcome::Built | Outcome::Done | Outcome::WriteFault => Ok(()),
        Outcome::Usage => put_plain(sink, b"usage"),
        Outcome::ReadFault(ReadFault::Failed) => put_plain(sink, b"cannot read"),
        Outcome::ReadFault(ReadFault::TooLong { max, .. }) => {
            put_numbered(sink, b"file of more than ", u128::from(*max), b" bytes")
        }
        Outcome::InputFault => put_plain(sink, b"cannot read input"),
        Outcome::Memory => put_plain(sink, b"out of memory"),
        Outcome::Limit(n) => put_numbered(sink, b"limit of ", u128::from(*n), b" instructions"),
        Outcome::Refused(refusal) => report_refusal(sink, refusal),
        Outcome::ImageRefused(fault) => {
            put_numbered(sink, b"image fault ", u128::from(fault.number()), b"")
        }
        Outcome::Running(n) => put_numbered(
            sink,
            b"still running after ",
            u128::from(*n),
            b" turns",
        ),
        Outcome::ListRefused { kind, line } => report_listing(sink, *kind, *line),
        Outcome::Trap { kind, pc } => report_trap(sink, *kind, *pc),
    }
}

fn report_listing<S: Sink>(sink: &mut S, kind: ListFault, line: u64) -> Result<(), Failed>
    ensures ok { OnOk result (S.taken sink.new ≡ gained (S.taken sink.old) (tool_line (Outcome.ListRefused kind line))) }
    ensures err { OnErr result
        (GainsPart (S.taken sink.old) (S.taken sink.new) (tool_line (Outcome.ListRefused kind line))) }
    ensures cause { CountsFaults (S.faults sink.old) (S.faults sink.new) result }
{
    let mut number = Buffer::new();
    let mut digits = Buffer::new();
    let number = number.format(kind.number()).as_bytes();
    let line = digits.format(line).as_bytes();
    put_line(sink, b"listing fault ", number, b" at line ", line)
}

fn report_refusal<S: Sink>(sink: &mut S, refusal: &SourceRefusal) -> Result<(), Failed>
    ensures ok { OnOk result (S.taken sink.new ≡ gained (S.taken sink.old) (refusal_line refusal.now)) }
    ensures err { OnErr result (GainsPart (S.taken sink.old) (S.taken sink.new) (refusal_line refusal.now)) }
    ensures cause { CountsFaults (S.faults sink.old) (S.faults sink.new) result }
{
    match refusal {
        SourceRefusal::Lex(fault) => put_at_line(sink, b"lexical fault", fault.line),
        SourceRefusal::Pre(fault) => report_directive(sink, *fault),
        SourceRefusal::Unsupported(word, line) => report_word(sink, word.bytes(), *line),
        SourceRefusal::Syntax { line, .. } => put_at_line(sink, b"syntax", *line),
        SourceRefusal::Nesting { line, .. } => put_at_line(sink, b"nesting", *line),
        SourceRefusal::Typing(fault) => report_rule(sink, *fault),
        SourceRefusal::Const(line) => put_at_line(sink, b"not constant", *line),
        SourceRefusal::TooLarge { which, count } => report_count(sink, *which, *count),
        SourceRefusal::Uncompiled(line) => put_at_line(sink, b"unsupported program", *line),
        SourceRefusal::RoomTooLarge(number) => {
            put_numbered(
                sink,
                b"room of function ",
                *number as u128,
                b" is too large",
            )
        }
        SourceRefusal::NumbersTooLarge => put_plain(sink, b"numbers of the code are too large"),
        SourceRefusal::Memory => put_plain(sink, b"out of memory"),
    }
}

fn report_directive<S: Sink>(sink: &mut S, fault: PreFault) -> Result<(), Failed>
    ensures ok { OnOk result (S.taken sink.new ≡ gained (S.taken sink.old) (refusal_line (SourceRefusal.Pre fault))) }
    ensures err { OnErr result
        (GainsPart (S.taken sink.old) (S.taken sink.new) (refusal_line (SourceRefusal.Pre fault))) }
    ensures cause { CountsFaults (S.faults sink.old) (S.faults sink.new) result }
{
    let mut kind = Buffer::new();
    let mut line = Buffer::new();
    let kind = kind.format(u64::from(fault.kind.number())).as_bytes();
    let line = line.format(u64::from(fault.line.number())).as_bytes();
    put_line(sink, b"directive fault ", kind, b" at line ", line)
}

fn report_word<S: Sink>(sink: &mut S, word: &[u8], line: Line) -> Result<(), Failed>
    ensures ok { OnOk result
        (S.taken sink.new ≡ gained (S.taken sink.old) (refusal_line (SourceRefusal.Unsupported word.now line))) }
    ensures err { OnErr result
        (GainsPart (S.taken sink.old) (S.taken sink.new) (refusal_line (SourceRefusal.Unsupported word.now line))) }
    ensures cause { CountsFaults (S.faults sink.old) (S.faults sink.new) result }
{
    let mut digits = Buffer::new();
    let line = digits.format(u64::from(line.number())).as_bytes();
    put_line(sink, b"unsupported ", word, b" at line ", line)
}

fn report_rule<S: Sink>(sink: &mut S, fault: Fault) -> Result<(), Failed>
    ensures ok { OnOk result
        (S.taken sink.new ≡ gained (S.taken sink.old) (refusal_line (SourceRefusal.Typing fault))) }
    ensures err { OnErr result
        (GainsPart (S.taken sink.old) (S.taken sink.new) (refusal_line (SourceRefusal.Typing fault))) }
    ensures cause { CountsFaults (S.faults sink.old) (S.faults sink.new) result }
{
    let mut rule = Buffer::new();
    let mut line = Buffer::new();
    let rule = rule.format(rule_number(fault.rule)).as_bytes();
    let line = line.format(fault.line.number()).as_bytes();
    put_line(sink, b"type rule ", rule, b" at line ", line)
}

fn report_count<S: Sink>(sink: &mut S, which: Counted, count: u128) -> Result<(), Failed>
    ensures ok { OnOk result
        (S.taken sink.new ≡ gained (S.taken sink.old) (refusal_line (SourceRefusal.TooLarge which count))) }
    ensures err { OnErr result
        (GainsPart (S.taken sink.old) (S.taken sink.new) (refusal_line (SourceRefusal.TooLarge which count))) }
    ensures cause { CountsFaults (S.faults sink.old) (S.faults sink.new) result }
{
    let mut digits = Buffer::new();
    let count = digits.format(count).as_bytes();
    put_line(sink, counted_name(which), b" of ", count, b" is too large")
}

#[tactic(auto, unfolding(crate::specs::Outcomes::hexadecimal))]
fn report_trap<S: Sink>(sink: &mut S, kind: TrapKind, pc: u64) -> Result<(), Failed>
    ensures ok { OnOk result (S.taken sink.new ≡ gained (S.taken sink.old) (tool_line (Outcome.Trap kind pc))) }
    ensures err { OnErr result (GainsPart (S.taken sink.old) (S.taken sink.new) (tool_line (Outcome.Trap kind pc))) }
    ensures cause { CountsFaults (S.faults sink.old) (S.faults sink.new) result }
{
    let digits = sixteen_digits(pc);
    put_line(
        sink,
        b"trap ",
        trap_name(kind),
        b" at 0x",
        significant(&digits),
    )
}

fn trap_name(kind: TrapKind) -> &'static [u8]
    ensures { result.now ≡ trap_name kind }
{
    match kind {
        TrapKind::Illegal => b"illegal",
        TrapKind::Access => b"access",
        TrapKind::Jump => b"jump",
        TrapKind::Break => b"break",
        TrapKind::Call => b"call",
    }
}

fn counted_name(which: Counted) -> &'static [u8]
    ensures { result.now ≡ counted_name which }
{
    match which {
        Counted::Source => b"source",
        Counted::Functions => b"functions",
        Counted::Parameters => b"parameters",
        Counted::Members => b"members",
        Counted::Globals => b"globals",
        Counted::Code => b"code",
    }
}

// The number of a rule, 0 to 27.
fn rule_number(rule: Rule) -> u8
    ensures { result ≡ rule_number rule }
{
    match rule {
        Rule::NoMain => 0,
        Rule::UndefinedFunction => 1,
        Rule::Undeclared => 2,
        Rule::Redeclared => 3,
        Rule::MistakenTag => 4,
        Rule::Incomplete => 5,
        Rule::MisplacedFunction => 6,
        Rule::NoConstant => 7,
        Rule::LargeType => 8,
        Rule::RepeatedMember => 9,
        Rule::NoMember => 10,
        Rule::NoTarget => 11,
        Rule::NoAddress => 12,
        Rule::NotAssignable => 13,
        Rule::Operands => 14,
        Rule::NoConversion => 15,
        Rule::NoCast => 16,
        Rule::NoCallee => 17,
        Rule::ArgumentCount => 18,
        Rule::NoCondition => 19,
        Rule::MistakenReturn => 20,
        Rule::MisplacedLabel => 21,
        Rule::MisplacedItem => 22,
        Rule::LibraryName => 23,
        Rule::MistakenFormat => 24,
        Rule::StructureValue => 25,
        Rule::MisplacedStorage => 26,
        Rule::ArrayOfValue => 27,
    }
}

fn put_plain<S: Sink>(sink: &mut S, text: &[u8]) -> Result<(), Failed>
    ensures ok { OnOk result (S.taken sink.new ≡ gained (S.taken sink.old) (plain_line text.now)) }
    ensures err { OnErr result (GainsPart (S.taken sink.old) (S.taken sink.new) (plain_line text.now)) }
    ensures cause { CountsFaults (S.faults sink.old) (S.faults sink.new) result }
{
    put_line(sink, text, b"", b"", b"")
}

fn put_numbered<S: Sink>(
    sink: &mut S,
    front: &[u8],
    number: u128,
    behind: &[u8],
) -> Result<(), Failed>
    ensures ok { OnOk result
        (S.taken sink.new ≡ gained (S.taken sink.old) (numbered_line front.now number behind.now)) }
    ensures err { OnErr result
        (GainsPart (S.taken sink.old) (S.taken sink.new) (numbered_line front.now number behind.now)) }
    ensures cause { CountsFaults (S.faults sink.old) (S.faults sink.new) result }
{
    let mut buffer = Buffer::new();
    let digits = buffer.format(number);
    put_line(sink, front, digits.as_bytes(), behind, b"")
}

fn put_at_line<S: Sink>(sink: &mut S, front: &[u8], line: Line) -> Result<(), Failed>
    ensures ok { OnOk result (S.taken sink.new ≡ gained (S.taken sink.old) (at_line front.now line)) }
    ensures err { OnErr result (GainsPart (S.taken sink.old) (S.taken sink.new) (at_line front.now line)) }
    ensures cause { CountsFaults (S.faults sink.old) (S.faults sink.new) result }
{
    let mut buffer = Buffer::new();
    let digits = buffer.format(line.number()).as_bytes();
    put_line(sink, front, b" at line ", digits, b"")
}

#[tactic(auto, unfolding(crate::specs::Outcomes::line_of))]
fn put_line<S: Sink>(sink: &mut S, a: &[u8], b: &[u8], c: &[u8], d: &[u8]) -> Result<(), Failed>
    ensures ok { OnOk result (S.taken sink.new ≡ gained (S.taken sink.old) (line_of a.now b.now c.now d.now)) }
    ensures err { OnErr result (GainsPart (S.taken sink.old) (S.taken sink.new) (line_of a.now b.now c.now d.now)) }
    ensures cause { CountsFaults (S.faults sink.old) (S.faults sink.new) result }
{
    put_pieces(sink, &[b"sbcets: error: ", a, b, c, d, b"\n"])
}

/// Puts pieces one after another. Where one fails, a part of the whole came in.
pub(crate) fn put_pieces<S: Sink>(sink: &mut S, pieces: &[&[u8]]) -> Result<(), Failed>
    ensures ok { OnOk result (S.taken sink.new ≡ gained (S.taken sink.old) (flat_map (λ p. p.now) pieces.now)) }
    ensures err { OnErr result (GainsPart (S.taken sink.old) (S.taken sink.new) (flat_map (λ p. p.now) pieces.now)) }
    ensures cause { CountsFaults (S.faults sink.old) (S.faults sink.new) result }
{
    for piece in pieces {
        if let Err(failed) = sink.put(piece) {
            return Err(failed);
        }
    }
    Ok(())
}

// The hexadecimal digits of a number, the highest first.
#[tactic(auto, unfolding(crate::specs::Outcomes::sixteen_digits))]
fn sixteen_digits(n: u64) -> [u8; 16]
    ensures { result ≡ sixteen_digits n }
{
    [
        digit_at(n, 0x1000_0000_0000_0000),
        digit_at(n, 0x100_0000_0000_0000),
        digit_at(n, 0x10_0000_0000_0000),
        digit_at(n, 0x1_0000_0000_0000),
        digit_at(n, 0x1000_0000_0000),
        digit_at(n, 0x100_0000_0000),
        digit_at(n, 0x10_0000_0000),
        digit_at(n, 0x1_0000_0000),
        digit_at(n, 0x1000_0000),
        digit_at(n, 0x100_0000),
        digit_at(n, 0x10_0000),
        digit_at(n, 0x1_0000),
        digit_at(n, 0x1000),
        digit_at(n, 0x100),
        digit_at(n, 0x10),
        digit_at(n, 1),
    ]
}

fn digit_at(n: u64, weight: u64) -> u8
    requires { 0 < weight }
    ensures { result ≡ digit_at n weight }
{
    let digit = (n / weight % 16) as u8;
    if digit < 10 {
        b'0' + digit
    } else {
        b'a' + (digit - 10)
    }
}

// Digits without the zeros in front, the last digit apart.
fn significant(digits: &[u8]) -> &[u8]
    requires { 15 ≤ length digits.now }
    ensures { result.now ≡ drop (zeros_in_front digits.now) digits.now }
{
    let (_, significant) = digits.split_at(zeros_in_front(&digits[..15]));
    significant
}

// How many zeros stand in front.
fn zeros_in_front(digits: &[u8]) -> usize
    ensures value { result ≡ prefix_len (λ d. d == 48) digits.now }
    ensures within { result ≤ length digits.now }
{
    digits.iter().take_while(|d| **d == b'0').count()
}
