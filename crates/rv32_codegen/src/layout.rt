// From label code to an image.
ghost use Rattle.std.specs.Prelude.{◌≡◌, ◌≤◌, ◌<◌, ◌+◌, ◌*◌, ◌%◌, ◌^◌, ◌++◌, [], ◌∷◌, List, ℕ, true, length, OnOk, IfOk, IfErr};
ghost use Rattle.rv32_isa.specs.declared.label.LabelLine.{LabelLine as Line};
ghost use Rattle.rv32_isa.specs.Words.{word_bytes};
ghost use Rattle.rv32_isa.specs.Row.{IsInRange};
ghost use Rattle.rv32_isa.specs.Hooks.{code_at};
ghost use Rattle.rv32_isa.specs.Image.{image_of};
ghost use Rattle.rv32_isa.specs.Machine.{Lives};
ghost use Rattle.rv32_isa.specs.Labels.{IsLine, AreLines, has_instruction, hooks_lead};
ghost use Rattle.rv32_isa.specs.LabelsMeaning.{OfDataAndHeap};
ghost use Rattle.word_code.specs.Memory.{data_of};
ghost use Rattle.rv32_codegen.specs.Layout.{all_far, size, too_far, code_size, target, laid_at, distance, branch_of, opposite, branched, laid, instrs, hook_of};
ghost use Rattle.rv32_codegen.specs.Layout.{hook_table, code_bytes};
ghost use Rattle.rv32_codegen.specs.Layout.{laid_out, enters_no_hook, DoesCode, IsFault, AllReach};
ghost use Rattle.rv32_codegen.specs.Places.{IsLayout};
ghost use Rattle.rv32_codegen.specs.declared.layout.TheConstants.{LINE_BYTES};

use crate::layout_places::{Layout, layout_of};
use arc_base::{Bytes, Items, Memory};
use byteorder::{ByteOrder, LittleEndian};
use rv32_isa::{HookAt, HookLabel, Image, Instr, LabelCode, LabelLine, Test, encode};
use std::alloc::Global;
use thiserror::Error;

/// How many bytes back a branch reaches. Ahead it reaches fewer.
pub const BRANCH_REACH: u64 = 4096;

/// How many bytes the code of an image may have.
pub const MOST_CODE_BYTES: u64 = 524_288;

/// The most bytes of a line of label code.
pub const LINE_BYTES: u64 = 8;

/// How many instructions of the machine a line of label code takes at most.
pub const LAYOUT_PACE: u32 = 2;

/// Why label code isn't laid out.
#[derive(Clone, Copy, Debug, Drop, Error)]
pub enum LayFault {
    /// The code has so many bytes, which are more than 524,288.
    #[error("the code has {0} bytes")]
    TooLarge(u64),
    /// No memory was found.
    #[error("no memory was found")]
    Memory,
}

impl From<Memory> for LayFault {
    ghost use Rattle.std.specs.Prelude.{◌≡◌};
    ghost use Rattle.rv32_codegen.specs.declared.layout.LayFault.TheVariants.{Memory};

    ghost from_gives = { λ _ e. e ≡ Memory };

    fn from(_: Memory) -> Self {
        LayFault::Memory
    }
}

/// Label code has at most as many bytes as if all branches were too far: four for each instruction,
/// eight for each branch, so at most eight for each line. A branch that is laid out as one instruction
/// reaches its label.
pub fn layouts()
    ensures shorter { (code : List Line) → code_size code ≤ size all_far code }
    ensures bounded { (code : List Line) → code_size code ≤ LINE_BYTES * length code }
    ensures unhooked { (code : List Line) (statics : List ℕ) (heap stack : ℕ) →
        enters_no_hook code ≡ true → (laid_out code statics heap stack).hooks ≡ [] }
    ensures reached { (code : List Line) → AllReach (too_far code) code code }
{}

// How far an address is from another, as 21 bits.
fn jump_distance(from: u32, to: u32) -> u32
    requires from { from < 2 ^ 20 }
    requires to { to < 2 ^ 20 }
    ensures { result ≡ distance 21 from to }
{
    (to + (1 << 21) - from) % (1 << 21)
}

// How far an address is from another, as 13 bits.
fn branch_distance(from: u32, to: u32) -> u32
    requires from { from < 2 ^ 20 }
    requires to { to < 2 ^ 20 }
    ensures { result ≡ distance 13 from to }
{
    (to + (1 << 21) - from) % (1 << 13)
}

// The other way round.
fn opposite(test: Test) -> Test
    ensures { result ≡ opposite test }
{
    match test {
        Test::Equal => Test::Unequal,
        Test::Unequal => Test::Equal,
        Test::Less => Test::AtLeast,
        Test::AtLeast => Test::Less,
        Test::Below => Test::NotBelow,
        Test::NotBelow => Test::Below,
    }
}

// A branch on two registers.
fn branch(test: Test, rs1: u32, rs2: u32, offset: u32) -> Instr
    ensures { result ≡ branch_of test rs1 rs2 offset }
{
    match test {
        Test::Equal => Instr::Beq { rs1, rs2, offset },
        Test::Unequal => Instr::Bne { rs1, rs2, offset },
        Test::Less => Instr::Blt { rs1, rs2, offset },
        Test::AtLeast => Instr::Bge { rs1, rs2, offset },
        Test::Below => Instr::Bltu { rs1, rs2, offset },
        Test::NotBelow => Instr::Bgeu { rs1, rs2, offset },
    }
}

// Adds a word of 32 bits, the lowest byte first.
#[tactic(auto, unfolding(rv32_isa::specs::Words::word_bytes))]
fn push_word(bytes: &mut Bytes, n: u32) -> Result<(), Memory>
    ensures { OnOk result (bytes.new ≡ bytes.old ++ word_bytes n) }
{
    let mut piece = [0u8; 4];
    LittleEndian::write_u32(&mut piece, n);
    bytes.append(&piece)
}

// Adds an instruction.
fn push_instr(bytes: &mut Bytes, i: Instr) -> Result<(), Memory>
    requires { IsInRange i }
    ensures { OnOk result (bytes.new ≡ bytes.old ++ code_bytes (i ∷ [])) }
{
    push_word(bytes, encode(&i))
}

// Adds a jump from one address to another.
fn push_jump(bytes: &mut Bytes, rd: u32, from: u32, to: u32) -> Result<(), Memory>
    requires rd { rd < 32 }
    requires from { from < 2 ^ 20 }
    requires to { to < 2 ^ 20 }
    requires from_whole { from % 4 ≡ 0 }
    requires to_whole { to % 4 ≡ 0 }
    ensures { OnOk result (bytes.new ≡ bytes.old ++
        code_bytes (Instr.Jal rd (distance 21 from to) ∷ [])) }
{
    let offset = jump_distance(from, to);
    push_instr(bytes, Instr::Jal { rd, offset })
}

// Adds a branch, which is too far or not.
fn push_branch(
    bytes: &mut Bytes,
    is_far: bool,
    test: Test,
    left: u32,
    right: u32,
    from: u32,
    to: u32,
) -> Result<(), Memory>
    requires left { left < 32 }
    requires right { right < 32 }
    requires from { from + 4 < 2 ^ 20 }
    requires to { to < 2 ^ 20 }
    requires from_whole { from % 4 ≡ 0 }
    requires to_whole { to % 4 ≡ 0 }
    ensures { OnOk result (bytes.new ≡ bytes.old ++
        code_bytes (branched is_far test left right from to)) }
{
    if is_far {
        push_instr(bytes, branch(opposite(test), left, right, 8))?;
        push_jump(bytes, 0, from + 4, to)
    } else {
        push_instr(bytes, branch(test, left, right, branch_distance(from, to)))
    }
}

// Adds a line, the first of so many at the end of the code.
fn push_line(
    bytes: &mut Bytes,
    code: &[LabelLine],
    layout: &Layout,
    left: usize,
    line: &LabelLine,
) -> Result<(), Memory>
    requires layout { IsLayout code.now layout.now }
    requires small { code_size code.now ≤ 524288 }
    requires line { IsLine line.now }
    ensures { OnOk result ((before lines : List Line) → code.now ≡ before ++ line.now ∷ lines →
        left ≡ length (line.now ∷ lines) →
        bytes.new ≡ bytes.old ++ code_bytes (laid (too_far code.now) code.now line.now lines)) }
{
    let from = layout.address(code, left);
    match *line {
        LabelLine::Label { .. } => Ok(()),
        LabelLine::Do { instr } => push_instr(bytes, instr),
        LabelLine::Jump { rd, to } => push_jump(bytes, rd, from, layout.target(code, to)),
        LabelLine::Branch {
            test,
            left: first,
            right: second,
            to,
        } => {
            let is_far = layout.is_far(left, line);
            push_branch(
                bytes,
                is_far,
                test,
                first,
                second,
                from,
                layout.target(code, to),
            )
        }
    }
}

// The bytes of all lines.
fn code_of(alloc: Global, code: &[LabelLine], layout: &Layout) -> Result<Bytes, Memory>
    requires layout { IsLayout code.now layout.now }
    requires small { code_size code.now ≤ 524288 }
    requires lines { AreLines code.now }
    ensures { IfOk result (λ bytes.
        bytes ≡ code_bytes (instrs (too_far code.now) code.now code.now)) }
{
    let mut bytes = Bytes::new(alloc);
    let mut left = code.len();
    for line in code {
        push_line(&mut bytes, code, layout, left, line)?;
        left -= 1;
    }
    Ok(bytes)
}

// The user's hook whose label a line is.
fn hook_of(line: &LabelLine) -> Option<HookLabel>
    ensures { result ≡ hook_of line.now }
{
    match *line {
        LabelLine::Label { hook, .. } => hook,
        _ => None,
    }
}

// Adds the hook that begins at a line, the first of so many at the end of the code, if one does.
fn push_hook(
    hooks: &mut Items<HookAt>,
    code: &[LabelLine],
    layout: &Layout,
    left: usize,
    line: &LabelLine,
) -> Result<(), Memory>
    requires layout { IsLayout code.now layout.now }
    requires small { code_size code.now ≤ 524288 }
    ensures { OnOk result ((before lines : List Line) → code.now ≡ before ++ line.now ∷ lines →
        left ≡ length (line.now ∷ lines) → hooks.new ++ hook_table (too_far code.now) code.now lines
        ≡ hooks.old ++ hook_table (too_far code.now) code.now (line.now ∷ lines)) }
{
    match hook_of(line) {
        Some(hook) => {
            let addr = layout.address(code, left);
            hooks.push(HookAt {
                kind: hook.kind,
                of: hook.of,
                addr,
            })
        }
        None => Ok(()),
    }
}

// Where the hooks of users stand.
fn hooks_of(alloc: Global, code: &[LabelLine], layout: &Layout) -> Result<Items<HookAt>, Memory>
    requires layout { IsLayout code.now layout.now }
    requires small { code_size code.now ≤ 524288 }
    ensures { IfOk result (λ hooks. hooks ≡ hook_table (too_far code.now) code.now code.now) }
{
    let mut hooks = Items::new(alloc);
    let mut left = code.len();
    for line in code {
        push_hook(&mut hooks, code, layout, left, line)?;
        left -= 1;
    }
    Ok(hooks)
}

// Adds two words.
fn push_words(bytes: &mut Bytes, first: u32, second: u32) -> Result<(), Memory>
    ensures { OnOk result (bytes.new ≡ bytes.old ++ (word_bytes first ++ word_bytes second)) }
{
    push_word(bytes, first)?;
    push_word(bytes, second)
}

// The sizes of heap and stack, and the code's own data.
fn data(alloc: Global, statics: &[u8], heap: u32, stack: u32) -> Result<Bytes, Memory>
    ensures { IfOk result (λ bytes. bytes ≡ data_of heap stack statics.now) }
{
    let mut bytes = Bytes::new(alloc);
    push_words(&mut bytes, heap, stack)?;
    bytes.append(statics)?;
    Ok(bytes)
}

// The image of code that isn't too large.
fn made(
    alloc: Global,
    code: &[LabelLine],
    layout: &Layout,
    statics: &[u8],
    heap: u32,
    stack: u32,
) -> Result<Image, Memory>
    requires layout { IsLayout code.now layout.now }
    requires small { code_size code.now ≤ 524288 }
    requires lines { AreLines code.now }
    requires some { has_instruction code.now ≡ true }
    requires hooks { hooks_lead code.now ≡ true }
    requires statics_whole { length statics.now % 4 ≡ 0 }
    requires statics_most { length statics.now ≤ 1048568 }
    requires heap { heap ≤ 16777216 }
    requires stack_whole { stack % 16 ≡ 0 }
    requires stack_least { 65536 ≤ stack }
    requires stack_most { stack ≤ 268435456 }
    ensures { IfOk result (λ image. image_of image ≡ laid_out code.now statics.now heap stack) }
{
    let statics = data(alloc, statics, heap, stack)?;
    let hooks = hooks_of(alloc, code, layout)?;
    let bytes = code_of(alloc, code, layout)?;
    Ok(Image {
        code: bytes,
        statics,
        heap,
        stack,
        hooks,
    })
}

/// The image of label code, over its own data. For some addresses of the marks it does what the
/// label code does under them.
///
/// `statics` has a multiple of 4 bytes, at most 1,048,568; `heap` is at most 16,777,216 bytes, and
/// `stack` a multiple of 16 from 65,536 to 268,435,456.
pub fn lay_out(
    alloc: Global,
    code: &LabelCode,
    statics: &[u8],
    heap: u32,
    stack: u32,
) -> Result<Image, LayFault>
    requires lines { AreLines code.now }
    requires some { has_instruction code.now ≡ true }
    requires hooks { hooks_lead code.now ≡ true }
    requires statics_whole { length statics.now % 4 ≡ 0 }
    requires statics_most { length statics.now ≤ 1048568 }
    requires heap { heap ≤ 16777216 }
    requires stack_whole { stack % 16 ≡ 0 }
    requires stack_least { 65536 ≤ stack }
    requires stack_most { stack ≤ 268435456 }
    ensures is { IfOk result (λ image. image_of image ≡ laid_out code.now statics.now heap stack) }
    ensures agrees { IfOk result (λ image. (live : Lives) → OfDataAndHeap live →
        DoesCode live (image_of image) code.now (data_of heap stack statics.now) heap stack) }
    ensures size { IfOk result (λ image. length image.code ≡ code_size code.now) }
    ensures fault { IfErr result (λ fault. IsFault (code_size code.now) fault) }
{
    let lines = code.as_slice();
    let layout = layout_of(alloc, lines)?;
    if layout.total > MOST_CODE_BYTES {
        return Err(LayFault::TooLarge(layout.total));
    }
    let image = made(alloc, lines, &layout, statics, heap, stack)?;
    Ok(image)
}
