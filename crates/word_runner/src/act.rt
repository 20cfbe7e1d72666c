// What a line does, by the words of its variables.
ghost use Rattle.rv32_isa.specs.Values.{one_if};
ghost use Rattle.std.specs.Prelude.{List, ℕ, [], if◌then◌else◌, ◌%◌, ◌+◌, ◌^◌, ◌≡◌};
ghost use Rattle.word_code.specs.Words.{Exits, Passes, Returns, WordScene, computed, does, holds, put, sets, using};
ghost use Rattle.word_code.specs.declared.word.WordInstr.TheVariants as line;
ghost use Rattle.word_runner.specs.Acts.{IsAct, May, both_of, did, scene_at};
ghost use Rattle.word_runner.specs.View.{held_in};

use crate::state::{Frame, Space};
use crate::vars::get;
use arc_base::Stream;
use rv32_isa::{
    Size, high_product_signed, is_less_signed, quotient, quotient_signed, remainder,
    remainder_signed, shifted_left, shifted_right, shifted_right_signed,
};
use word_code::{Test, WordInstr, WordOperation};

/// What a line does, with words in place of variables.
#[derive(Clone, Copy)]
pub enum Act {
    Passes,
    /// A unit is spent.
    Spends,
    /// A variable gets a word.
    Sets {
        to: u32,
        word: u32,
    },
    /// The lowest bytes of a word are put to an address.
    Stores {
        address: u32,
        size: Size,
        word: u32,
    },
    /// Control goes on at a label.
    Leaps(u32),
    /// A word is the argument of that number.
    Gives {
        index: u32,
        word: u32,
    },
    /// A procedure is called, for a variable.
    Calls {
        to: u32,
        callee: u32,
    },
    Returns(u32),
    /// So many bytes of input at most come to an address, and their number to a variable.
    Reads {
        to: u32,
        address: u32,
        len: u32,
    },
    /// So many bytes from an address on are written.
    Writes {
        stream: Stream,
        address: u32,
        len: u32,
    },
    Exits(u8),
    Fails,
}

// The words of two variables.
#[inline(always)]
fn both(vars: &Vec<Option<u32>>, left: u32, right: u32) -> Option<(u32, u32)>
    ensures { result ≡ both_of (held_in vars.now.items left) (held_in vars.now.items right) }
{
    match get(vars, left) {
        None => None,
        Some(a) => match get(vars, right) {
            None => None,
            Some(b) => Some((a, b)),
        },
    }
}

fn one_if(b: bool) -> u32
    ensures { result ≡ one_if b }
{
    if b { 1 } else { 0 }
}

fn computed(operation: WordOperation, a: u32, b: u32) -> u32
    ensures { result ≡ computed operation a b }
{
    match operation {
        WordOperation::Add => a.wrapping_add(b),
        WordOperation::Subtract => a.wrapping_sub(b),
        WordOperation::Multiply => a.wrapping_mul(b),
        WordOperation::MultiplyHigh => high_product_signed(a, b),
        WordOperation::Divide => quotient_signed(a, b),
        WordOperation::Remainder => remainder_signed(a, b),
        WordOperation::DivideUnsigned => quotient(a, b),
        WordOperation::RemainderUnsigned => remainder(a, b),
        WordOperation::And => a & b,
        WordOperation::Or => a | b,
        WordOperation::Xor => a ^ b,
        WordOperation::ShiftLeft => shifted_left(a, b),
        WordOperation::ShiftRight => shifted_right(a, b),
        WordOperation::ShiftRightSigned => shifted_right_signed(a, b),
        WordOperation::Less => one_if(is_less_signed(a, b)),
        WordOperation::Below => one_if(a < b),
    }
}

fn holds(test: Test, a: u32, b: u32) -> bool
    ensures { result ≡ holds test a b }
{
    match test {
        Test::Equal => a == b,
        Test::Unequal => a != b,
        Test::Less => is_less_signed(a, b),
        Test::AtLeast => !is_less_signed(a, b),
        Test::Below => a < b,
        Test::NotBelow => a >= b,
    }
}

// A variable gets a word, if there is one.
#[inline(always)]
fn sets(space: &Space, to: u32, word: Option<u32>) -> Act
    ensures did { (x : WordScene) → did x result ≡ using word (λ a. sets x to a) }
    ensures may { May space.now result }
{
    match word {
        None => Act::Fails,
        Some(word) => Act::Sets { to, word },
    }
}

fn compute(
    frame: &Frame,
    space: &Space,
    to: u32,
    operation: WordOperation,
    left: u32,
    right: u32,
) -> Act
    ensures did { IsAct frame.now space.now (line.Compute to operation left right) result }
    ensures may { May space.now result }
{
    match both(&frame.vars, left, right) {
        None => Act::Fails,
        Some((a, b)) => Act::Sets {
            to,
            word: computed(operation, a, b),
        },
    }
}

fn load(frame: &Frame, space: &Space, to: u32, address: u32, size: Size) -> Act
    ensures did { IsAct frame.now space.now (line.Load to address size) result }
    ensures may { May space.now result }
{
    match get(&frame.vars, address) {
        None => Act::Fails,
        Some(a) => sets(space, to, space.number(a, size)),
    }
}

fn store(frame: &Frame, space: &Space, address: u32, from: u32, size: Size) -> Act
    ensures did { IsAct frame.now space.now (line.Store address from size) result }
    ensures may { May space.now result }
{
    match both(&frame.vars, address, from) {
        None => Act::Fails,
        Some((address, word)) => {
            if space.may_put(address, size) {
                Act::Stores {
                    address,
                    size,
                    word,
                }
            } else {
                Act::Fails
            }
        }
    }
}

// An act follows where a test of two variables holds.
fn where_holds(frame: &Frame, space: &Space, test: Test, left: u32, right: u32, act: Act) -> Act
    requires { May space.now act }
    ensures did { (x : WordScene) → did x result ≡ using (held_in frame.now.vars.items left) (λ a.
        using (held_in frame.now.vars.items right) (λ b. if holds test a b then did x act else Passes [] x)) }
    ensures may { May space.now result }
{
    match both(&frame.vars, left, right) {
        None => Act::Fails,
        Some((a, b)) => { if holds(test, a, b) { act } else { Act::Passes } }
    }
}

fn read(frame: &Frame, space: &Space, to: u32, address: u32, len: u32) -> Act
    ensures did { IsAct frame.now space.now (line.Read to address len) result }
    ensures may { May space.now result }
{
    match both(&frame.vars, address, len) {
        None => Act::Fails,
        Some((address, len)) => {
            if space.may_fill(address, len) {
                Act::Reads { to, address, len }
            } else {
                Act::Fails
            }
        }
    }
}

fn write(frame: &Frame, space: &Space, stream: Stream, address: u32, len: u32) -> Act
    ensures did { IsAct frame.now space.now (line.Write stream address len) result }
    ensures may { May space.now result }
{
    match both(&frame.vars, address, len) {
        None => Act::Fails,
        Some((address, len)) => match space.bytes(address, len) {
            None => Act::Fails,
            Some(_) => Act::Writes {
                stream,
                address,
                len,
            },
        },
    }
}

fn sum(space: &Space, to: u32, word: Option<u32>, value: u32) -> Act
    ensures did { (x : WordScene) → did x result ≡ using word (λ a. sets x to (a + value)) }
    ensures may { May space.now result }
{
    match word {
        None => Act::Fails,
        Some(word) => Act::Sets {
            to,
            word: word.wrapping_add(value),
        },
    }
}

fn argument(space: &Space, index: u32, word: Option<u32>) -> Act
    ensures did { (x : WordScene) → did x result ≡ using word (λ a. Passes [] (record x { given = put x.given index a })) }
    ensures may { May space.now result }
{
    match word {
        None => Act::Fails,
        Some(word) => Act::Gives { index, word },
    }
}

fn give_back(space: &Space, word: Option<u32>) -> Act
    ensures did { (x : WordScene) → did x result ≡ using word (λ a. Returns a) }
    ensures may { May space.now result }
{
    match word {
        None => Act::Fails,
        Some(word) => Act::Returns(word),
    }
}

fn exit(space: &Space, word: Option<u32>) -> Act
    ensures did { (x : WordScene) → did x result ≡ using word (λ a. Exits (a % 256)) }
    ensures may { May space.now result }
{
    match word {
        None => Act::Fails,
        Some(word) => Act::Exits((word % 256) as u8),
    }
}

/// What a line does.
pub fn act_of(frame: &Frame, space: &Space, data_at: u32, line: WordInstr) -> Act
    ensures did { (input : List ℕ) (d : ℕ) → d % 2 ^ 32 ≡ data_at →
        did (scene_at frame.now space.now input d) result ≡ does (scene_at frame.now space.now input d) line }
    ensures may { May space.now result }
{
    match line {
        WordInstr::Label { .. } => Act::Passes,
        WordInstr::Spend => Act::Spends,
        WordInstr::SpendIf { test, left, right } => {
            where_holds(frame, space, test, left, right, Act::Spends)
        }
        WordInstr::Constant { to, value } => Act::Sets { to, word: value },
        WordInstr::Copy { to, from } => sets(space, to, get(&frame.vars, from)),
        WordInstr::Compute {
            to,
            operation,
            left,
            right,
        } => compute(frame, space, to, operation, left, right),
        WordInstr::Sum { to, from, value } => sum(space, to, get(&frame.vars, from), value),
        WordInstr::Place { to, at } => Act::Sets {
            to,
            word: frame.base.wrapping_add(at),
        },
        WordInstr::Datum { to, at } => Act::Sets {
            to,
            word: data_at.wrapping_add(at),
        },
        WordInstr::Load { to, address, size } => load(frame, space, to, address, size),
        WordInstr::Store {
            address,
            from,
            size,
        } => store(frame, space, address, from, size),
        WordInstr::Jump { to } => Act::Leaps(to),
        WordInstr::Branch {
            test,
            left,
            right,
            to,
        } => where_holds(frame, space, test, left, right, Act::Leaps(to)),
        WordInstr::Argument { index, from } => argument(space, index, get(&frame.vars, from)),
        WordInstr::Call { to, callee } => Act::Calls { to, callee },
        WordInstr::Return { from } => give_back(space, get(&frame.vars, from)),
        WordInstr::Read { to, address, len } => read(frame, space, to, address, len),
        WordInstr::Write {
            stream,
            address,
            len,
        } => write(frame, space, stream, address, len),
        WordInstr::Exit { status } => exit(space, get(&frame.vars, status)),
    }
}
