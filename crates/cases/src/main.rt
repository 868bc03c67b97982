// Runs a table of inputs. Each line names a program and gives its input in hexadecimal digits; printed is what the
// program prints, each line behind the number of its case, or a dash where it prints nothing.
#![tactic(auto)]

ghost use Rattle.std.specs.Prelude.{◌≡◌, ◌<◌, [], ◌∷◌, IfSome, IfOk};
ghost use Rattle.cases.specs.Digits.{digit_of, spelled};

use anyhow::{Context, bail};
use printing::print::whole_text;
use records::stage::Program;
use std::alloc::Global;
use std::io::{BufRead, BufReader, BufWriter, Write};

// Kept apart from `run`, since a main may have no contract.
fn main(rt: HostRuntime) -> anyhow::Result<()> {
    run(&rt)
}

fn run(rt: &HostRuntime) -> anyhow::Result<()> {
    let mut out = BufWriter::new(rt.alloc(), rt.stdout())?;
    let lines = BufReader::new(rt.alloc(), rt.stdin())?.lines(rt.alloc());
    for (number, line) in lines.enumerate() {
        run_case(rt.alloc(), number, line?.as_str(), &mut out)?;
    }
    out.flush()?;
    Ok(())
}

fn run_case<W: Write>(heap: Global, number: usize, case: &str, out: &mut W) -> anyhow::Result<()> {
    let (name, digits) = case.split_once(' ').context("a case has no program")?;
    let program = name
        .parse::<Program>()
        .ok()
        .context("a case names no program")?;
    let input = from_digits(heap, digits.as_bytes())?;
    let text = whole_text(heap, program, input.as_slice())?;
    print_lines(number, text.as_str(), out)
}

// The number that a hexadecimal digit stands for.
fn digit(code: u8) -> Option<u8>
    ensures { IfSome result (λ d. (d < 16) × (digit_of d ≡ code)) }
{
    match code {
        b'0'..=b'9' => Some(code - b'0'),
        b'a'..=b'f' => Some(code - b'a' + 10),
        _ => None,
    }
}

// The byte of two digits.
#[tactic(auto, using(crate::proofs::SpelledLaws::spelled_byte))]
fn byte_of(high: u8, low: u8) -> Option<u8>
    ensures { IfSome result (λ b. spelled (b ∷ []) ≡ high ∷ low ∷ []) }
{
    Some(digit(high)? * 16 + digit(low)?)
}

// The bytes that a row of digits spells. Not by the kit's `hex`, which takes capital letters too, so that what it gives need
// not be spelled as the case is. The pattern names both digits of a byte, and what it leaves is the odd one.
fn from_digits(heap: Global, digits: &[u8]) -> anyhow::Result<Vec<u8>>
    ensures { IfOk result (λ v. spelled v.items ≡ digits.now) }
{
    let mut bytes = Vec::new(heap);
    let mut rest = digits;
    while let [high, low, tail @ ..] = rest {
        bytes.push(byte_of(*high, *low).context("a case has a character that is no digit")?)?;
        rest = tail;
    }
    if !rest.is_empty() {
        bail!("a case has an odd digit");
    }
    Ok(bytes)
}

fn print_lines<W: Write>(number: usize, text: &str, out: &mut W) -> anyhow::Result<()> {
    if text.is_empty() {
        writeln!(out, "{number}: -")?;
    }
    for line in text.lines() {
        writeln!(out, "{number}: {line}")?;
    }
    Ok(())
}
