// The line on standard error of an answer.
ghost use Rattle.std.specs.Prelude.{◌≡◌, [], ◌∷◌, map, codes, decimal};
ghost use Rattle.arc_base.specs.Codes.{code_text};
ghost use Rattle.arc_base.specs.Outside.{Writes};
ghost use Rattle.elf32.specs.Faults.{fault_number};
ghost use Rattle.arc_top.specs.Report.{Says, joined, name_of, report_of, refusal_report, kind_number, address_text, fault_pieces};
ghost use Rattle.arc_top.specs.Answer.{OnQuiet};

use crate::answer::Answer;
use arc_base::{Code, Failed, Place, Sink, put_all};
use elf32::ElfFault;
use hex::encode_to_slice;
use itoa::Buffer;
use rv32_isa::FaultKind;

// Writes pieces one after another, or a front of them where a put fails.
fn put_pieces<E: Sink>(err: &mut E, pieces: &[&[u8]]) -> Result<(), Failed>
    ensures said { Says (E.written err.old) (E.written err.new) (E.faults err.old) (E.faults err.new) result
        (joined (map (λ piece. piece.now) pieces.now)) }
{
    for piece in pieces {
        put_all(err, piece)?;
    }
    Ok(())
}

// Writes the pieces of a refusal. They all live as long as the shortest of them.
fn put_place<'a, E: Sink>(
    err: &mut E,
    main: &'a [u8],
    line: &'a [u8],
    column: &'a [u8],
    code: &'a [u8],
) -> Result<(), Failed>
    ensures said { Says (E.written err.old) (E.written err.new) (E.faults err.old) (E.faults err.new) result
        (refusal_report main.now line.now column.now code.now) }
{
    put_pieces(err, &[main, b":", line, b":", column, b": ", code, b"\n"])
}

// The name of the module with that number.
fn name_of<'a>(names: &[&'a str], number: u32) -> &'a str
    ensures { result.now ≡ name_of (map (λ name. name.now) names.now) number }
{
    let number = number as usize;
    if number < names.len() {
        names[number]
    } else {
        ""
    }
}

// Writes the line of a refusal.
fn put_refusal<E: Sink>(err: &mut E, main: &str, code: Code, at: Place) -> Result<(), Failed>
    ensures said { Says (E.written err.old) (E.written err.new) (E.faults err.old) (E.faults err.new) result
        (refusal_report main.now (decimal at.line) (decimal at.column) (code_text code)) }
{
    let (mut line, mut column) = (Buffer::new(), Buffer::new());
    let line = line.format(at.line);
    let column = column.format(at.column);
    put_place(
        err,
        main.as_bytes(),
        line.as_bytes(),
        column.as_bytes(),
        code.text().as_bytes(),
    )
}

// The number of a fault of the machine.
fn kind_number(kind: FaultKind) -> u8
    ensures { result ≡ kind_number kind }
{
    match kind {
        FaultKind::UnknownWord => 1,
        FaultKind::Misaligned => 2,
        FaultKind::OutOfRange => 3,
        FaultKind::BadCall => 4,
        FaultKind::Break => 5,
    }
}

// An address as eight hexadecimal digits.
fn address_text(pc: u32) -> [u8; 8]
    ensures { result ≡ address_text pc }
{
    let mut digits = [0u8; 8];
    let _ = encode_to_slice(pc.to_be_bytes(), &mut digits);
    digits
}

// Writes the pieces of a fault of the machine. They all live as long as the shortest of them.
fn put_fault<'a, E: Sink>(err: &mut E, kind: &'a [u8], address: &'a [u8]) -> Result<(), Failed>
    ensures said { Says (E.written err.old) (E.written err.new) (E.faults err.old) (E.faults err.new) result
        (joined (fault_pieces kind.now address.now)) }
{
    put_pieces(
        err,
        &[b"nimarc: machine fault ", kind, b" at ", address, b"\n"],
    )
}

// Writes the line of a fault of the machine.
fn put_machine_fault<E: Sink>(err: &mut E, kind: FaultKind, pc: u32) -> Result<(), Failed>
    ensures said { Says (E.written err.old) (E.written err.new) (E.faults err.old) (E.faults err.new) result
        (joined (fault_pieces (decimal (kind_number kind)) (address_text pc))) }
{
    let mut number = Buffer::new();
    let number = number.format(kind_number(kind));
    let address = address_text(pc);
    put_fault(err, number.as_bytes(), &address)
}

// Writes the line of a file that is none.
fn put_bad_elf<E: Sink>(err: &mut E, fault: ElfFault) -> Result<(), Failed>
    ensures said { Says (E.written err.old) (E.written err.new) (E.faults err.old) (E.faults err.new) result
        (joined (codes "nimarc: bad elf " ∷ decimal (fault_number fault) ∷ codes "\n" ∷ [])) }
{
    let mut number = Buffer::new();
    let number = number.format(fault.number());
    put_pieces(err, &[b"nimarc: bad elf ", number.as_bytes(), b"\n"])
}

fn put_line<E: Sink>(err: &mut E, names: &[&str], answer: &Answer) -> Result<(), Failed>
    ensures said { Says (E.written err.old) (E.written err.new) (E.faults err.old) (E.faults err.new) result
        (report_of (map (λ name. name.now) names.now) answer.now) }
    ensures quiet { OnQuiet answer.now (err.new ≡ err.old) }
{
    match answer {
        Answer::Done | Answer::Ended(_) | Answer::WriteFault(_) => Ok(()),
        Answer::Usage => put_pieces(
            err,
            &[b"usage: nimarc check|build|run|exec|mean|plan|gen\n"],
        ),
        Answer::NoFile(name) => put_pieces(err, &[b"nimarc: no file ", name.as_bytes(), b"\n"]),
        Answer::TooLong(name) => put_pieces(err, &[b"nimarc: too long ", name.as_bytes(), b"\n"]),
        Answer::Refused { code, at } => { put_refusal(err, name_of(names, at.module), *code, *at) }
        Answer::BadElf(fault) => put_bad_elf(err, *fault),
        Answer::MachineFault { kind, pc, .. } => put_machine_fault(err, *kind, *pc),
        Answer::StepsSpent(_) => put_pieces(err, &[b"nimarc: steps spent\n"]),
        Answer::ReadFault => put_pieces(err, &[b"nimarc: read fault\n"]),
        Answer::StoreFault => put_pieces(err, &[b"nimarc: store fault\n"]),
        Answer::Memory => put_pieces(err, &[b"nimarc: out of memory\n"]),
    }
}

/// Says an answer on standard error, in one line, where the modules have these names by their numbers. Done, Ended and
/// WriteFault are not said.
pub fn put_report<E: Sink>(err: &mut E, names: &[&str], answer: &Answer)
    ensures said { Writes (E.written err.old) (E.written err.new) (E.faults err.old) (E.faults err.new)
        (report_of (map (λ name. name.now) names.now) answer.now) }
    ensures quiet { OnQuiet answer.now (err.new ≡ err.old) }
{
    let _ = put_line(err, names, answer);
}
