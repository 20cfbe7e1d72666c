// What is around the lines of a procedure.
ghost use Rattle.std.specs.Prelude.{◌≡◌, ◌≤◌, ◌+◌, ◌*◌, suc, length, map, IfOk};
ghost use Rattle.flat_code.specs.Codes.{block_plain};
ghost use Rattle.word_lowering.specs.Layouts.{params_in};
ghost use Rattle.word_lowering.specs.LineCode.{own_label, arguments_of, labels_in, all_labels};
ghost use Rattle.word_lowering.specs.LineCode.{value, location_by, location, own_place, place};
ghost use Rattle.word_lowering.specs.LineCode.{operand, operands, operand_at, held, led};
ghost use Rattle.word_lowering.specs.LineCode.{layout_at, variable_of};
ghost use Rattle.word_lowering.specs.LineCode.{literal_at, standing_at, text_at, own_alias};
ghost use Rattle.word_lowering.specs.Scope.{around_of, HasRoom};

use crate::homes::{Alias, FIRST, Home, Housed, Layout, Sort};
use crate::laid_texts::LaidTexts;
use crate::layouts::nowhere;
use crate::nodes::{waiter_at, waiter_house};
use crate::place_table::PlaceTable;
use crate::setting::Setting;
use crate::spots::sum;
use arc_base::Memory;
use flat_code::{BlockLine, CodeProc, From, Line, OwnedLine, Piece};
use nim_types::TypeTable;

/// What is around the lines of a procedure.
#[derive(Clone, Copy)]
pub struct Scope<'a> {
    pub types: &'a TypeTable,
    pub texts: &'a LaidTexts<'a>,
    /// The layouts of all procedures, the start code's as the last one.
    pub layouts: &'a [Layout],
    /// The procedure's own layout.
    pub own: &'a Layout,
    /// The places of the start code.
    pub globals: &'a PlaceTable,
    pub setting: Setting,
}

impl Scope<'_> {
    /// A temporary with a value.
    pub fn value(&self, t: u32) -> Housed
        ensures { result ≡ value (around_of self.now) t }
    {
        self.own.all.found(Sort::Value, t)
    }

    /// A declared place with a value of its own.
    pub fn own_place(&self, p: u32) -> Housed
        ensures { result ≡ own_place (around_of self.now) p }
    {
        self.own.all.found(Sort::Own, p)
    }

    /// A declared place.
    pub fn place(&self, p: u32, global: bool) -> Housed
        ensures { result ≡ place (around_of self.now) p global }
    {
        if global {
            self.globals.found(Sort::Global, p)
        } else {
            self.own.all.found(Sort::Declared, p)
        }
    }

    // What it is another name for, or itself.
    fn named(&self, own: Housed) -> Housed
        ensures { result ≡ location_by (around_of self.now) own }
    {
        match own.alias {
            Alias::Place { place, global } => self.place(place, global),
            Alias::Value(t) => self.value(t),
            Alias::Node(node) => waiter_house(waiter_at(node, self.own.waiters.as_slice())),
            _ => own,
        }
    }

    /// What a temporary with a location leads to.
    pub fn location(&self, t: u32) -> Housed
        ensures { result ≡ location (around_of self.now) t }
    {
        self.named(self.own.all.found(Sort::Location, t))
    }

    /// What that is another name for.
    pub fn own_alias(&self, t: u32) -> Alias
        ensures { result ≡ own_alias (around_of self.now) t }
    {
        self.own.all.found(Sort::Location, t).alias
    }

    /// An operand.
    pub fn operand(&self, from: From) -> Housed
        ensures { result ≡ operand (around_of self.now) from }
    {
        match from {
            From::Value(t) => self.value(t),
            From::Place(t) => self.location(t),
        }
    }

    /// The operand at a position, or nowhere.
    pub fn operand_at(&self, from: &[From], index: usize) -> Housed
        ensures { result ≡ operand_at (operands (around_of self.now) from.now) index }
    {
        match from.get(index) {
            Some(x) => self.operand(*x),
            None => nowhere(),
        }
    }

    /// The places of a procedure.
    pub fn places_of(&self, proc: u32) -> &[Housed]
        ensures { result.now ≡ (layout_at (around_of self.now) proc).all }
    {
        match self.layouts.get(proc as usize) {
            Some(layout) => layout.all.as_slice(),
            None => &[],
        }
    }

    /// Its parameters.
    pub fn params_of(&self, proc: u32) -> &[Housed]
        ensures { result.now ≡ params_in (layout_at (around_of self.now) proc).all }
    {
        match self.layouts.get(proc as usize) {
            Some(layout) => layout.all.params(),
            None => &[],
        }
    }

    /// Whether it has lines.
    pub fn runs(&self, proc: u32) -> bool
        ensures { result ≡ (layout_at (around_of self.now) proc).runs }
    {
        match self.layouts.get(proc as usize) {
            Some(layout) => layout.runs,
            None => false,
        }
    }

    /// Where a literal of the procedure is laid out: so many bytes, behind so many of its literals.
    pub fn literal_at(&self, behind: u32, bytes: u32) -> Result<u32, Memory>
        requires { HasRoom (around_of self.now) }
        ensures { IfOk result (λ at. at ≡ literal_at (around_of self.now) behind bytes) }
    {
        let offset = self.setting.literals as usize + behind as usize;
        let place = self.texts.place_of(offset, bytes)?;
        Ok(self.setting.texts + place as u32)
    }

    /// And where a text is, whichever line has it.
    pub fn text_at(&self, text: &[u8]) -> Result<u32, Memory>
        requires { HasRoom (around_of self.now) }
        ensures { IfOk result (λ at. at ≡ text_at (around_of self.now) text.now) }
    {
        let place = self.texts.text_place(text)?;
        Ok(self.setting.texts + place as u32)
    }

    /// Where a constant stands in the data.
    pub fn standing_at(&self, pieces: &[Piece]) -> Result<u32, Memory>
        requires { HasRoom (around_of self.now) }
        ensures { IfOk result (λ at. at ≡ standing_at (around_of self.now) pieces.now) }
    {
        let place = self.texts.standing_place(pieces)?;
        Ok(self.setting.texts + place as u32)
    }

    /// The variable of an ordinal.
    pub fn held(&self, t: u32) -> u32
        ensures { result ≡ held (around_of self.now) t }
    {
        variable_of(self.value(t))
    }

    /// The variable of a location.
    pub fn led(&self, t: u32) -> u32
        ensures { result ≡ led (around_of self.now) t }
    {
        variable_of(self.location(t))
    }
}

/// The variable in which a place is.
pub fn variable_of(place: Housed) -> u32
    ensures { result ≡ variable_of place }
{
    match place.home {
        Home::Variable(v) => v,
        _ => FIRST,
    }
}

// ---- labels

/// The label of a name.
pub fn own_label(name: u32) -> Result<u32, Memory>
    ensures { IfOk result (λ label. label ≡ own_label name) }
{
    if name > u32::MAX / 2 {
        return Err(Memory);
    }
    sum(8, 2 * name)
}

fn with_arguments(from: &[From]) -> Result<u32, Memory>
    ensures { IfOk result (λ n. n ≡ suc (length from.now)) }
{
    let count = from.len();
    if count >= u32::MAX as usize {
        return Err(Memory);
    }
    Ok(count as u32 + 1)
}

/// How many labels a line has of its own.
pub fn labels_of(line: &BlockLine) -> Result<u32, Memory>
    ensures { IfOk result (λ n. n ≡ suc (length (arguments_of (block_plain line.now)))) }
{
    match line {
        BlockLine::Plain(OwnedLine::Plain(Line::Call { from, .. })) => {
            with_arguments(from.as_slice())
        }
        BlockLine::Plain(OwnedLine::Plain(Line::Apply { from, .. })) => {
            with_arguments(from.as_slice())
        }
        _ => Ok(1),
    }
}

/// How many these lines have.
pub fn labels_in(lines: &[BlockLine]) -> Result<u32, Memory>
    ensures { IfOk result (λ n. n ≡ labels_in (map block_plain lines.now)) }
{
    let mut n = 0;
    for line in lines {
        n = sum(n, labels_of(line)?)?;
    }
    Ok(n)
}

/// A number of 32 bits counts those of procedures, and so the operands of each line.
pub fn few_labels(procs: &[CodeProc<BlockLine>]) -> Result<(), Memory>
    ensures { IfOk result (λ done. all_labels procs.now ≤ 4294967295) }
{
    let mut n = 0;
    for proc in procs {
        n = sum(n, labels_in(proc.lines.as_slice())?)?;
    }
    Ok(())
}

/// The label of a line's code, where those behind it have so many.
pub fn label_before(labels: u32) -> Result<u32, Memory>
    ensures { IfOk result (λ label. label ≡ 9 + 2 * labels) }
{
    if labels > u32::MAX / 2 {
        return Err(Memory);
    }
    sum(9, 2 * labels)
}
