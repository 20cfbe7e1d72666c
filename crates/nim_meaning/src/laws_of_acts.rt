// The laws of what a program does to places, in order, and of the ways through it.
ghost use Rattle.std.specs.Prelude.{◌≡◌, ◌↔◌, ℕ, Bool, List, Option, Some, None, [], false};
ghost use Rattle.std.specs.Prelude.{slice_get, Contains};
ghost use Rattle.std.specs.Prelude.{suc, true, ◌++◌};
ghost use Rattle.nim_types.specs.Types.{Ty, Facts};
ghost use Rattle.nim_plan.specs.declared.plan.Plan.{Plan};
ghost use Rattle.nim_program.specs.declared.operation.Use.{Use};
ghost use Rattle.nim_program.specs.declared.operation.Use.TheVariants.{Looked};
ghost use Rattle.nim_program.specs.declared.program.Mode.{Mode};
ghost use Rattle.nim_program.specs.Program.{Expr, Stmts, Declared, Param, Body, Proc, Program};
ghost use Rattle.nim_program.specs.Folds.{nodes, block_nodes, block_places, body_places};
ghost use Rattle.nim_meaning.specs.ActTree.{Root, Flow, On, Act, Acts, Bind, Result, leaving};
ghost use Rattle.nim_meaning.specs.ActTree.{Begins, closing};
ghost use Rattle.nim_meaning.specs.ActTree.{Done, Temporary, until_read};
ghost use Rattle.nim_meaning.specs.Ways.{Point, Leave, Exits, Raises, MayEnd, Edges, all_scopes};
ghost use Rattle.nim_meaning.specs.Ways.{At, Stop, entry, onto};
ghost use Rattle.nim_meaning.specs.Arrows.{flows, all_arrows, Among, Is_flow};
ghost use Rattle.nim_meaning.specs.State.{State};
ghost use Rattle.nim_meaning.specs.Here.{Here, is_hooked};
ghost use Rattle.nim_meaning.specs.Here.{is_hooked as type_hooked};
ghost use Rattle.nim_meaning.specs.Waiting.{nodes_of, waiting};
ghost use Rattle.nim_meaning.specs.Shapes.{modes_in};
ghost use Rattle.nim_meaning.specs.Meaning.{eval, exec_all, from_level, calls, goes_through};
ghost use Rattle.nim_meaning.specs.Meaning.{at_first, at_top};
ghost use Rattle.nim_meaning.specs.AtPoints.{A_value, Nothing, DoesBy};
ghost use Rattle.nim_meaning.specs.ActsOf.{all_made, acts_of, stmts_acts, proc_acts, start_acts};
ghost use Rattle.nim_meaning.specs.ActsOf.{procedure_acts};
ghost use Rattle.nim_meaning.specs.Marks.{Member, Distinct, place_numbers, all_marks};
ghost use Rattle.nim_meaning.specs.Lent.{All_read, reads_later, ends_reading};
ghost use Rattle.nim_meaning.specs.PlaceKinds.{Kinded, numbers, body_kinds, all_kinds, kind_in};
ghost use Rattle.nim_meaning.specs.PlaceKinds.{declared_as, movable};
ghost use Rattle.nim_meaning.specs.Runs.{GoesBy, is_plain_value, is_plain_block};
ghost use Rattle.nim_meaning.specs.Runs.{has_no_hooks, start_graph, first_point, procedure_graph};
ghost use Rattle.nim_meaning.specs.Runs.{first_point_of, StandsInCall};
ghost use Rattle.nim_meaning.specs.ActExamples.{no_hooks, text_hooks, none_raised};
ghost use Rattle.nim_meaning.specs.ActExamples.{straight, straight_acts, straight_ways};
ghost use Rattle.nim_meaning.specs.ActExamples.{leaving_early, leaving_early_acts};
ghost use Rattle.nim_meaning.specs.ActExamples.{leaving_early_ways, returning_early};
ghost use Rattle.nim_meaning.specs.ActExamples.{returning_early_acts, returning_early_ways};
ghost use Rattle.nim_meaning.specs.ActExamples.{turning_over, turning_over_acts};
ghost use Rattle.nim_meaning.specs.ActExamples.{turning_over_ways, sinking, sinking_acts};
ghost use Rattle.nim_meaning.specs.ActExamples.{sinking_ways, sunk_acts, sunk_ways};
ghost use Rattle.nim_meaning.specs.Sites.{IsSite};
ghost use Rattle.nim_meaning.specs.TreeSites.{all_sites};
ghost use Rattle.nim_meaning.specs.SiteExamples.{lending, lending_acts, behind_lent, lent_region};
ghost use Rattle.nim_meaning.specs.SiteExamples.{giving_acts, lending_kinds, owning, owning_kinds};
ghost use Rattle.nim_meaning.specs.SiteExamples.{moved, given_to_t, given_to_t_acts};
ghost use Rattle.nim_meaning.specs.SiteExamples.{literal_length, literal_length_acts};
ghost use Rattle.nim_meaning.specs.SiteExamples.{maybe_joined, maybe_joined_acts, covered};
ghost use Rattle.nim_meaning.specs.SiteExamples.{covered_acts, taking_part, taking_part_ways};
ghost use Rattle.nim_meaning.specs.SiteExamples.{giving_number, giving_number_ways};

/// The ways as a family of edges are those of a list that is computed.
pub fn ways()
    ensures flows { (raises : Raises) (b : Acts) (f : Flow) →
        MayEnd raises b f ↔ Is_flow f (flows raises b) }
    ensures arrows { (raises : Raises) (b : Acts) (k : Exits) (p : Point) (d : Act) (q : Point) →
        Edges raises b k p d q ↔ Among p d q (all_arrows raises b k) }
{}

/// The scope of a place is left once for each flow by which it may be left, by one act, to where
/// that flow leads.
pub fn exits()
    ensures scope { (raises : Raises) (x : Root) (last : ℕ) (b : Acts) (k : Exits) (f : Flow)
        (d : Act) (q : Point) → all_scopes x b ≡ false →
        Edges raises (Bind x last b) k (Leave x f) d q
        ↔ (MayEnd raises b f × (d ≡ leaving x last f) × (q ≡ k f)) }
    ensures result { (raises : Raises) (x : Root) (last : ℕ) (b : Acts) (k : Exits) (f : Flow)
        (d : Act) (q : Point) → all_scopes x b ≡ false →
        Edges raises (Result x last b) k (Leave x f) d q
        ↔ (MayEnd raises b f × (d ≡ closing x last f) × (q ≡ k f)) }
{}

/// Each run passes, in order, the points of a way through the tree of acts; which place is read or
/// written at a point is no part of this. An expression leads from its first point to that of what
/// follows, in front of any rest, and a block to where its flow leads; a run that is over, or that
/// has no unit left, has come by a way so far. So does each run of a program without hooks, but for
/// literals that `echo` writes, in its start code and in each call.
pub fn runs()
    ensures value { (raises : Raises) (program : Program) (plan : Plan) (left level : ℕ)
        (body : Body) (how : Use) (to : Option Root) (e : Expr) (rest : Acts) (exits : Exits)
        (s : State) →
        has_no_hooks program ≡ true → is_plain_value (is_hooked program.facts) e ≡ true →
        let acts = acts_of (is_hooked program.facts) (modes_in plan.sinks program.procs) how to e
        rest in
        GoesBy (Edges raises acts exits) (entry acts (exits On))
        (onto (entry rest (exits On)) exits) (StandsInCall raises plan.sinks program) s.trail
        (eval e how (from_level program plan level (calls program plan left (suc level)) body) s) }
    ensures block { (raises : Raises) (program : Program) (plan : Plan) (left level : ℕ)
        (body : Body) (b : Stmts) (exits : Exits) (s : State) →
        has_no_hooks program ≡ true → is_plain_block (is_hooked program.facts) b ≡ true →
        let acts = stmts_acts (is_hooked program.facts) (modes_in plan.sinks program.procs)
        body.result b in
        GoesBy (Edges raises acts exits) (entry acts (exits On)) exits
        (StandsInCall raises plan.sinks program) s.trail
        (exec_all b (from_level program plan level (calls program plan left (suc level)) body) s) }
    ensures procedure { (raises : Raises) (program : Program) (plan : Plan) (proc : ℕ) (p : Proc)
        (body : Body) (left level : ℕ) (s : State) →
        has_no_hooks program ≡ true → slice_get program.procs proc ≡ Some p →
        p.body ≡ Some body →
        GoesBy (procedure_graph raises plan.sinks program proc)
        (first_point_of raises plan.sinks program proc)
        Stop (StandsInCall raises plan.sinks program) s.trail
        (exec_all body.stmts
        (from_level program plan level (calls program plan left (suc level)) body) s) }
    ensures start { (raises : Raises) (program : Program) (plan : Plan) (heap : ℕ)
        (input : List ℕ) (units : ℕ) →
        has_no_hooks program ≡ true →
        GoesBy (start_graph raises plan.sinks program)
        (first_point raises plan.sinks program)
        Stop (StandsInCall raises plan.sinks program) []
        (goes_through program plan (at_first program heap input units)) }
{}

/// What a run does with places is what the acts of its way say. An expression, a block, and the
/// statements of a procedure and of the start code look up, read, fill and write at each point the
/// places that the act there names, along its paths, and no others.
pub fn deeds()
    ensures value { (raises : Raises) (program : Program) (plan : Plan) (left level : ℕ)
        (body : Body) (how : Use) (to : Option Root) (e : Expr) (rest : Acts) (exits : Exits) →
        is_plain_value (is_hooked program.facts) e ≡ true →
        let acts = acts_of (is_hooked program.facts) (modes_in plan.sinks program.procs) how to e
        rest in
        let here = from_level program plan level (calls program plan left (suc level)) body in
        DoesBy (Edges raises acts exits) here A_value (entry acts (exits On))
        (onto (entry rest (exits On)) exits) (eval e how here) }
    ensures block { (raises : Raises) (program : Program) (plan : Plan) (left level : ℕ)
        (body : Body) (b : Stmts) (exits : Exits) →
        is_plain_block (is_hooked program.facts) b ≡ true →
        let acts = stmts_acts (is_hooked program.facts) (modes_in plan.sinks program.procs)
        body.result b in
        let here = from_level program plan level (calls program plan left (suc level)) body in
        DoesBy (Edges raises acts exits) here Nothing (entry acts (exits On)) exits
        (exec_all b here) }
    ensures procedure { (raises : Raises) (program : Program) (plan : Plan) (proc : ℕ) (p : Proc)
        (body : Body) (left level : ℕ) →
        has_no_hooks program ≡ true → slice_get program.procs proc ≡ Some p →
        p.body ≡ Some body →
        let here = from_level program plan level (calls program plan left (suc level)) body in
        DoesBy (procedure_graph raises plan.sinks program proc) here Nothing
        (first_point_of raises plan.sinks program proc) Stop (exec_all body.stmts here) }
    ensures start { (raises : Raises) (program : Program) (plan : Plan) →
        has_no_hooks program ≡ true →
        DoesBy (start_graph raises plan.sinks program) (at_top program plan) Nothing
        (first_point raises plan.sinks program) Stop
        (exec_all program.start.stmts (at_top program plan)) }
{}

/// Each place that a procedure declares has a kind, in order of text. By its number each is found,
/// where numbers are distinct.
pub fn kinds()
    ensures places { (globals : List Declared) (in_body : ℕ → ℕ → Mode) (proc : ℕ)
        (params : List Param) (body : Body) →
        numbers (body_kinds globals in_body proc params body)
        ≡ place_numbers (body_places params body) }
    ensures found { (ks : List Kinded) (k : Kinded) →
        Distinct (numbers ks) → Member k ks → kind_in ks k.place ≡ Some k.kind }
{}

/// Where nodes have numbers of their own, and declared places too, each point of the acts of a
/// block stands there once, and so does the scope of each place. So each point does one thing.
pub fn points()
    ensures value { (hooked : Ty → Bool) (at_call : ℕ → ℕ → Mode) (how : Use) (to : Option Root)
        (e : Expr) →
        Distinct (nodes e) → Distinct (all_marks (acts_of hooked at_call how to e Done)) }
    ensures block { (hooked : Ty → Bool) (at_call : ℕ → ℕ → Mode) (result : Option Declared)
        (b : Stmts) →
        Distinct (block_nodes b) → Distinct (place_numbers (block_places b)) →
        Distinct (all_marks (stmts_acts hooked at_call result b)) }
    ensures procedure { (hooked : Ty → Bool) (at_call in_body : ℕ → ℕ → Mode) (proc : ℕ)
        (params : List Param) (body : Body) →
        Distinct (block_nodes body.stmts) → Distinct (place_numbers (body_places params body)) →
        Distinct (all_marks (proc_acts hooked at_call in_body proc params body)) }
    ensures deed { (raises : Raises) (b : Acts) (k : Exits) (p : Point) (d e : Act) (q r : Point) →
        Distinct (all_marks b) → Edges raises b k p d q → Edges raises b k p e r → d ≡ e }
{}

/// Each value that is lent to a temporary is read behind, in the same block, by an operation or a
/// call: there its region ends.
pub fn lent()
    ensures procedure { (hooked : Ty → Bool) (at_call in_body : ℕ → ℕ → Mode) (proc : ℕ)
        (params : List Param) (body : Body) →
        All_read (proc_acts hooked at_call in_body proc params body) }
    ensures region { (x : Root) (b : Acts) →
        reads_later x b ≡ true → ends_reading x (until_read x b) ≡ true }
{}

/// The values that wait in a part, and end with it, are the temporaries that its acts make, in the
/// same order.
pub fn temporaries()
    ensures value { (facts : Facts) (modes : ℕ → ℕ → Mode) (how : Use) (to : Option Root)
        (e : Expr) (rest : Acts) →
        all_made (acts_of (type_hooked facts) modes how to e rest)
        ≡ nodes_of (waiting facts modes e how) ++ all_made rest }
{}

/// The acts of small programs, and the ways through them.
pub fn acts()
    ensures straight { start_acts no_hooks [] straight ≡ straight_acts }
    ensures straight_ways { all_arrows none_raised straight_acts Stop ≡ straight_ways }
    ensures leaving_early { start_acts text_hooks [] leaving_early ≡ leaving_early_acts }
    ensures leaving_early_ways { all_arrows none_raised leaving_early_acts Stop
        ≡ leaving_early_ways }
    ensures returning_early { procedure_acts no_hooks [] returning_early 0 ≡ returning_early_acts }
    ensures returning_early_ways { all_arrows none_raised returning_early_acts Stop
        ≡ returning_early_ways }
    ensures turning_over { start_acts no_hooks [] turning_over ≡ turning_over_acts }
    ensures turning_over_ways { all_arrows none_raised turning_over_acts Stop ≡ turning_over_ways }
    ensures sinking { start_acts text_hooks [] sinking ≡ sinking_acts }
    ensures sinking_ways { all_arrows none_raised sinking_acts Stop ≡ sinking_ways }
    ensures sunk { procedure_acts text_hooks [] sinking 0 ≡ sunk_acts }
    ensures sunk_ways { all_arrows none_raised sunk_acts Stop ≡ sunk_ways }
{}

/// Lent arguments, literals, what gets a value, temporaries of what may not be evaluated, branches,
/// and kinds of places.
pub fn sites()
    ensures lending { start_acts text_hooks [] lending ≡ lending_acts }
    ensures region { until_read (Temporary 12) behind_lent ≡ lent_region }
    ensures giving { procedure_acts text_hooks [] lending 0 ≡ giving_acts }
    ensures kinds { all_kinds (modes_in [] lending.procs) lending ≡ lending_kinds }
    ensures owning { all_kinds (modes_in [] owning.procs) owning ≡ owning_kinds }
    ensures sink { movable (declared_as (modes_in [] owning.procs) owning) moved ≡ true }
    ensures global { movable (declared_as (modes_in [] lending.procs) lending) moved ≡ false }
    ensures declared { stmts_acts text_hooks (modes_in [] owning.procs) None given_to_t
        ≡ given_to_t_acts }
    ensures literal { acts_of text_hooks (modes_in [] owning.procs) Looked None literal_length Done
        ≡ literal_length_acts }
    ensures maybe { stmts_acts text_hooks (modes_in [] owning.procs) None maybe_joined
        ≡ maybe_joined_acts }
    ensures covered { stmts_acts text_hooks (modes_in [] owning.procs) None covered
        ≡ covered_acts }
{}

/// The sites of a program's acts are those of its trees; without hooks it has none.
pub fn program_sites()
    ensures trees { (program : Program) (sinks : List ℕ) (site : ℕ) →
        IsSite program sinks site ↔ Contains (all_sites program sinks) site }
    ensures none { (program : Program) (sinks : List ℕ) (site : ℕ) → has_no_hooks program ≡ true →
        IsSite program sinks site → ⊥ }
{}

/// What small blocks do at the points of ways that are written out.
pub fn at_points()
    ensures part { (here : Here) → DoesBy (λ p d q. Among p d q taking_part_ways) here Nothing
        (At 1 Begins) Stop (exec_all taking_part here) }
    ensures number { (here : Here) → DoesBy (λ p d q. Among p d q giving_number_ways) here Nothing
        (At 1 Begins) Stop (exec_all giving_number here) }
{}
