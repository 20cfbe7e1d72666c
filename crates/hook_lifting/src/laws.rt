// The law of lifted hooks.
ghost use Rattle.std.specs.Prelude.{◌≡◌, ℕ, List, true, false, Some, slice_get};
ghost use Rattle.nim_types.specs.declared.types.TypeDef.{TypeDef as Entry};
ghost use Rattle.nim_types.specs.Table.{IsTable};
ghost use Rattle.nim_program.specs.Sizes.{HaveForms};
ghost use Rattle.flat_code.specs.Scene.{Known, known_in};
ghost use Rattle.hook_lifting.specs.declared.lifted.Hook.{Hook as HookKind};
ghost use Rattle.hook_lifting.specs.Lifted.{has_hooks, is_routine, lines_of, cut_lines};
ghost use Rattle.hook_lifting.specs.Doing.{Does_hook, Does_cut};

/// The lines of each hook of a type do, in each world, what the meaning does with the values: the
/// walk over the form of the type. Where the walk is at a fault, nothing is said. If what they call
/// weighs a pace of 32 at least for each of its works, they weigh at most 2 more for each of the walk's,
/// and 8; unless there are refs in the type, or objects with hooks of their own.
pub fn lifting()
    ensures { (table : List Entry) → IsTable table → HaveForms table → (hook : HookKind) (ty : ℕ)
        (entry : Entry) → slice_get table ty ≡ Some entry → has_hooks table ty ≡ true →
        is_routine entry hook ≡ false →
        Does_hook (known_in table) hook ty entry (lines_of table hook ty entry) }
{}

/// In each world the lines that make a sequence shorter do what the meaning does: it has so many
/// elements, those behind end, and its block forgets them. Where the meaning is at a fault, nothing is
/// said. They weigh likewise, and 13, if the elements have hooks.
pub fn cutting()
    ensures { (known : Known) (of : ℕ) → Does_cut known of (cut_lines of) }
{}
