// The laws of types, forms and tables.
ghost use Rattle.std.specs.Prelude.{◌≡◌, ◌<◌, ℕ, List, Bool, true, false, Some, length, nat_eq, []};
ghost use Rattle.std.specs.Prelude.{slice_get};
ghost use Rattle.nim_types.specs.declared.types.TypeDef.{TypeDef};
ghost use Rattle.nim_types.specs.Types.{Ty, Fact, Facts, fact_of, same};
ghost use Rattle.nim_types.specs.Forms.{Form, IsForm, HasForm, form_of, size, hooked, levels};
ghost use Rattle.nim_types.specs.Forms.{has_resource};
ghost use Rattle.nim_types.specs.Types.{tuple, no_types};
ghost use Rattle.nim_types.specs.Examples.{pair, three, node, node_form, renamed, renamed_form};
ghost use Rattle.nim_types.specs.Examples.{declared, endless, endless_fact};
ghost use Rattle.nim_types.specs.Table.{IsTable, IsWithin, types_in, type_at, meant, facts_in};
ghost use Rattle.nim_types.specs.Table.{said_of, Adds, Grows};

/// Types are equal exactly where `same` says so.
pub fn equal_types()
    ensures sound { (a b : Ty) → same a b ≡ true → a ≡ b }
    ensures reflexive { (a : Ty) → same a a ≡ true }
{}

/// Forms of types.
pub fn type_forms()
    // A type has one at most.
    ensures one { (whole : Bool) (facts : Facts) (ty : Ty) (f g : Form)
        → IsForm whole facts ty f → IsForm whole facts ty g → f ≡ g }
    // Where it has one, it is the one that is computed.
    ensures computed { (facts : Facts) (ty : Ty) (f : Form) → HasForm facts ty f →
        form_of facts ty ≡ f }
    // Size and hooks don't need what stands in sequences.
    ensures stored { (facts : Facts) (ty : Ty) (f : Form) → HasForm facts ty f
        → (g : Form) × IsForm false facts ty g × (size g ≡ size f) × (hooked g ≡ hooked f) }
{}

/// The entries of a table.
pub fn table_entries()
    ensures count { (ds : List TypeDef) → length (types_in ds) ≡ length ds }
    // The type of a number is what its entry means.
    ensures meant { (ds : List TypeDef) (i : ℕ) (d : TypeDef) → IsTable ds → slice_get ds i ≡ Some d
        → type_at (types_in ds) i ≡ meant (types_in ds) d }
    // Types are equal where their numbers are.
    ensures interned { (ds : List TypeDef) (i j : ℕ) → IsTable ds → i < length ds → j < length ds
        → same (type_at (types_in ds) i) (type_at (types_in ds) j) ≡ nat_eq i j }
    // What is said of a type is what its entry says, and nothing else is said.
    ensures said { (ds : List TypeDef) (i : ℕ) (d : TypeDef) → IsTable ds → slice_get ds i ≡ Some d
        → fact_of (facts_in ds) (type_at (types_in ds) i) ≡ said_of (types_in ds) d }
    ensures only { (ds : List TypeDef) (ty : Ty) (fact : Fact) →
        fact_of (facts_in ds) ty ≡ Some fact
        → (i : ℕ) × (d : TypeDef) × (slice_get ds i ≡ Some d) × (meant (types_in ds) d ≡ ty)
        × (said_of (types_in ds) d ≡ Some fact) }
{}

/// Tables that grow.
pub fn table_growth()
    ensures same { (ds : List TypeDef) → Grows ds ds }
    ensures further { (a b c : List TypeDef) → Grows a b → Grows b c → Grows a c }
    ensures kept { (old new : List TypeDef) (i : ℕ) → Grows old new → i < length old
        → type_at (types_in new) i ≡ type_at (types_in old) i }
    ensures forms { (old new : List TypeDef) (whole : Bool) (ty : Ty) (f : Form) → Grows old new
        → IsForm whole (facts_in old) ty f → IsForm whole (facts_in new) ty f }
    // The type of what was added is the entry's, in each table that grows from there.
    ensures added { (old new later : List TypeDef) (d : TypeDef) (id : ℕ) → IsWithin (length old) d
        → Adds old d id new → Grows old new → Grows new later
        → (id < length later) × (type_at (types_in later) id ≡ meant (types_in later) d) }
{}

/// A few types, worked out by hand.
pub fn type_examples()
    ensures pair { size (form_of [] pair) ≡ 12 }
    ensures pair_hooked { hooked (form_of [] pair) ≡ true }
    ensures pair_levels { levels (form_of [] pair) ≡ 2 }
    ensures nothing { size (form_of [] (tuple [] no_types)) ≡ 4 }
    ensures three { size (form_of [] three) ≡ 24 }
    ensures three_levels { levels (form_of [] three) ≡ 3 }
    ensures node { form_of declared node ≡ node_form }
    ensures node_has { HasForm declared node node_form }
    ensures node_hooked { hooked node_form ≡ true }
    ensures node_resource { has_resource node_form ≡ false }
    ensures renamed { form_of declared renamed ≡ renamed_form }
    ensures renamed_size { size renamed_form ≡ 4 }
    ensures renamed_hooked { hooked renamed_form ≡ true }
    ensures renamed_resource { has_resource renamed_form ≡ true }
    // What contains itself by value has no form.
    ensures endless { (f : Form) → HasForm endless_fact endless f → ⊥ }
{}
