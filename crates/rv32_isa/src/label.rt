// Label code: instructions and labels, before addresses are chosen.
use crate::instr::Instr;
use arc_base::Items;

/// A comparison of two words.
#[derive(Clone, Copy)]
pub enum Test {
    /// They are equal.
    Equal,
    /// They aren't equal.
    Unequal,
    /// The left is less, as signed numbers.
    Less,
    /// The left isn't less, as signed numbers.
    AtLeast,
    /// The left is less, as unsigned numbers.
    Below,
    /// The left isn't less, as unsigned numbers.
    NotBelow,
}

/// The name of a label.
#[derive(Clone, Copy)]
pub enum LabelName {
    /// Where a procedure begins.
    Entry { procedure: u32 },
    /// A label within a procedure.
    Inner { procedure: u32, name: u32 },
}

/// What the label of a user's hook carries.
#[derive(Clone, Copy)]
pub struct HookLabel {
    /// destroy 0, wasMoved 1, sink 2, copy 3.
    pub kind: u32,
    /// The number of its type.
    pub of: u32,
}

/// A line of label code. Registers are numbers below 32.
#[derive(Clone, Copy)]
pub enum LabelLine {
    /// A point to which jumps lead. Where it is that of a user's hook, whoever comes here calls the
    /// hook.
    Label {
        name: LabelName,
        hook: Option<HookLabel>,
    },
    /// An instruction that doesn't depend on where it stands: any but `auipc`, `jal` and branches.
    Do {
        instr: Instr,
    },
    /// Jumps to a label, and puts the address of the next line into `rd`.
    Jump {
        rd: u32,
        to: LabelName,
    },
    /// Goes on at a label where a comparison of two registers holds.
    Branch {
        test: Test,
        left: u32,
        right: u32,
        to: LabelName,
    },
}

/// Label code, which contracts see as a list of lines.
pub type LabelCode = Items<LabelLine>;
