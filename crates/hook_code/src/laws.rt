// The laws of hooks as word code.
ghost use Rattle.std.specs.Prelude.{◌≡◌, ◌≤◌, ◌<◌, ◌++◌, ℕ, List, true};
ghost use Rattle.nim_types.specs.declared.types.TypeDef.{TypeDef as Entry};
ghost use Rattle.nim_types.specs.Table.{IsTable};
ghost use Rattle.nim_program.specs.Sizes.{HaveForms};
ghost use Rattle.word_code.specs.declared.routine.TheConstants.{COPY};
ghost use Rattle.word_code.specs.declared.word.WordProc.{WordProc as Procedure};
ghost use Rattle.word_code.specs.Words.{are_procs, have_no_hooks};
ghost use Rattle.word_code.specs.Sizes.{AreRanked};
ghost use Rattle.word_code.specs.Joined.{IsFree, all_moved};
ghost use Rattle.heap_memory.specs.declared.numbers.TheConstants.{RELEASE, TEXT_COPY, SEQ_NEW};
ghost use Rattle.hook_code.specs.HookCode.{procs_in};
ghost use Rattle.hook_code.specs.Kept.{IsOrdered, AreShort, Ranks, rank_in, hook_ranks};
ghost use Rattle.hook_code.specs.Kept.{AreThere, CutsAreThere};

/// The procedures of all hooks of a table of types, with numbers from one on: they are well formed,
/// none is a user's hook, and they weigh so much for each type with hooks and each part of it.
/// (What they promise is said over what is around them: proofs/ForCallers, `hooks_kept`,
/// `cuts_kept`.)
pub fn hook_procedures()
    ensures formed { (table : List Entry) (first : ℕ) → are_procs (procs_in table first) ≡ true }
    ensures unhooked { (table : List Entry) (first : ℕ) → have_no_hooks (procs_in table first) ≡ true }
    // Each is found by its number, behind procedures with other numbers, wherever their data begin.
    ensures there { (table : List Entry) (first shift : ℕ) (before after : List Procedure) →
        ((number : ℕ) → first ≤ number → IsFree number before) →
        AreThere table first (before ++ (all_moved shift (procs_in table first) ++ after)) }
    ensures cuts_there { (table : List Entry) (first shift : ℕ) (before after : List Procedure) →
        ((number : ℕ) → first ≤ number → IsFree number before) →
        CutsAreThere table first (before ++ (all_moved shift (procs_in table first) ++ after)) }
{}

/// Where types have forms and arrays fewer elements than there are words, the type of a part has fewer
/// levels than that of the whole. So with ranks by levels, above those of the procedures with smaller
/// numbers, each hook calls only what has a lower rank.
pub fn hook_levels()
    ensures ordered { (table : List Entry) → IsTable table → HaveForms table → AreShort table →
        IsOrdered table (rank_in table) }
    ensures ranks { (table : List Entry) (first base : ℕ) (level others : ℕ → ℕ) →
        ((number : ℕ) → number < first → others number ≤ base) → COPY < first → RELEASE < first →
        TEXT_COPY < first → SEQ_NEW < first →
        Ranks table first level base (hook_ranks table first level base others) }
    ensures ranked { (table : List Entry) (first base : ℕ) (level rank : ℕ → ℕ) →
        IsOrdered table level → Ranks table first level base rank →
        AreRanked rank (procs_in table first) }
{}
