//! What operations and parts of bodies do with the cells that they may touch.

ghost use Rattle.std.specs.Prelude.{◌≡◌, ◌≤◌, ◌<◌, ◌+◌, ℕ, ℤ, suc, false, true, Bool, not};
ghost use Rattle.std.specs.Prelude.{List, [], ◌∷◌, ◌++◌, ◌⊎◌, length, take, Option, Some};
ghost use Rattle.nim_types.specs.Types.{Ty, Facts};
ghost use Rattle.nim_types.specs.Forms.{Form, plain, block, elements, hooked, Forms, form_of};
ghost use Rattle.nim_types.specs.Forms.{HasForm};
ghost use Rattle.nim_program.specs.Kinds.{kind_of, field_at, element_of, is_held};
ghost use Rattle.nim_program.specs.Kinds.{is_declared_as};
ghost use Rattle.nim_program.specs.Program.{Declared, Param, Body, Expr, Path, Do};
ghost use Rattle.nim_program.specs.Program.{type_of, type_at, node_at};
ghost use Rattle.nim_program.specs.Typed.{is_typed, is_typed_path};
ghost use Rattle.nim_program.specs.Folds.{lists, node_numbers, total};
ghost use Rattle.nim_program.specs.Numbering.{rise_to};
ghost use Rattle.nim_program.specs.declared.operation.Use.{Use};
ghost use Rattle.nim_program.specs.declared.operation.Use.TheVariants.{Owned};
ghost use Rattle.nim_program.specs.Scopes.{Placed, look, Here as Scope};
ghost use Rattle.nim_meaning.specs.Values.{Value, Values, Base, Slot, Holds, count, length_of, Location};
ghost use Rattle.nim_meaning.specs.Values.{Standing, Waiting, at_base, Given, At as Place};
ghost use Rattle.nim_meaning.specs.Heap.{Elements};
ghost use Rattle.nim_meaning.specs.Marks.{Member, Distinct};
ghost use Rattle.nim_meaning.specs.State.{World, State, load, with_frame};
ghost use Rattle.nim_meaning.specs.ActTree.{Flow};
ghost use Rattle.nim_meaning.specs.Acts.{Does};
ghost use Rattle.nim_meaning.specs.Deeds.{Deed, Opens, Waits, Leaves, changed};
ghost use Rattle.nim_meaning.specs.Here.{Here, gives_hooked, form_for};
ghost use Rattle.nim_meaning.specs.Waiting.{Wait};
ghost use Rattle.nim_meaning.specs.Aims.{Aim, PartOf, ItemOf, find};
ghost use Rattle.nim_meaning.specs.Places.{put, fetched, exchanged, place_at};
ghost use Rattle.nim_meaning.specs.Table.{updated, swapped};
ghost use Rattle.nim_meaning.specs.Lifted.{assigned, assigns, copied, fresh, fresh_text};
ghost use Rattle.nim_meaning.specs.OwnedRows.{appended, added, shortened, sequence_to, line_into};
ghost use Rattle.nim_meaning.specs.Steps.{all_end};
ghost use Rattle.nim_meaning.specs.Meaning.{place_ends, scoped, fill, fill_from, result_gets, exec, exec_all, frame_of, entered_body};
ghost use Rattle.holders.specs.Owned.{IsBase, Full, Constant, Has, HasEach, HasBlocksAlone};
ghost use Rattle.holders.specs.Sure.{Sure, Answered, Comes};
ghost use Rattle.holders.specs.Becoming.{Strange, times};
ghost use Rattle.holders.specs.Beside.{PartWays};
ghost use Rattle.holders.specs.Territory.{Owner, AllOwners, ClearOf, NoBaseOf, Territory, Moves};
ghost use Rattle.holders.specs.Territory.{Among, Owns};
ghost use Rattle.holders.specs.Working.{Works, without};
ghost use Rattle.holders.specs.Ways.{Step, Differ, Goes, Opens as OpensInto, part_owners, Chain};
ghost use Rattle.holders.specs.Ways.{Chains, AllPart, targets_of};
ghost use Rattle.holders.specs.Finding.{Found, PlaceOf, AimsAt, steps_of, Read};
ghost use Rattle.holders.specs.Finding.{Fetched};
ghost use Rattle.holders.specs.Scenes.{Named};
ghost use Rattle.holders.specs.Handing.{UnderWay, HandsOut};
ghost use Rattle.holders.specs.Running.{IsBelow, IsOutside, Region, AreOwn, Wider};
ghost use Rattle.holders.specs.Staging.{Stage, Holding, Up};
ghost use Rattle.holders.specs.Used.{Used, Made, read_by, used_as};
ghost use Rattle.holders.specs.Groups.{without_node, without_waits, Ends, AllMine};
ghost use Rattle.holders.specs.Entering.{Handed, own_cells, StandThere};
ghost use Rattle.holders.specs.Asked.{Limits, FactsOfTheirSort, Asked, AskedAt};
ghost use Rattle.holders.specs.Evaluating.{value_nodes, path_nodes, at_nodes, seen_of, Scene, HasScene};
ghost use Rattle.holders.specs.Claimed.{ValueSo, AimSo, NoCalls, known_at, InBody, body_region};
ghost use Rattle.holders.specs.Called.{ParamsEnd, Result, CameBack, CallGives, NotRaised};

/// A territory is worked on by some of its cells alone, in another order, or by the parts of one of
/// them; by cells of their own where ways lead that part, as they do where some step is another
/// field. What becomes of these becomes of the whole.
pub fn cells()
    ensures alone { (os qs : List Owner) (world : World) (t : Territory (os ++ qs) world) →
        Works (os ++ qs) os t.blocks world }
    ensures in_front { (os : List Owner) (o : Owner) (i : Among os o) (world : World)
        (t : Territory os world) → Works os (o ∷ without i) t.blocks world }
    ensures opened { (os : List Owner) (o : Owner) (i : Among os o) (fs : Forms) (from : Location)
        (world : World) (t : Territory os world) → OpensInto world o fs from →
        Works os (part_owners fs from 0 ++ without i) t.blocks world }
    ensures separated { (os : List Owner) (targets : ℕ → Owner) (n : ℕ) (world : World)
        (t : Territory os world) (chains : Chains os world targets n) → AllPart chains →
        Works os (targets_of targets n) t.blocks world }
    ensures fields { (a b : List Step) (path other : List ℕ) → Differ a b → Goes a path →
        Goes b other → PartWays path other }
{}

/// A path that is looked up leads to what is there. What stands there is read, and put, where it has
/// no blocks.
pub fn paths()
    ensures found { (os : List Owner) (s : State) (may : Bool) (root : ℕ) (aim : Aim)
        (f : Form) → Territory os s.world → AimsAt os s.world may root aim f →
        Answered (λ m after. (after ≡ s.world) × Found os s.world may root (steps_of aim) f m)
        (find aim s) }
    ensures named { (facts : Facts) (lent : ℕ → Bool) (level : ℕ) (ps : List Placed)
        (os : List Owner) (n : ℕ) (ty : Ty) (world : World) →
        Named facts lent world level ps os → look ps n ≡ Some ty →
        (root : ℕ) × PlaceOf os world level n (form_of facts ty) (not (lent n)) root }
    ensures field { (os : List Owner) (may : Bool) (facts : Facts) (ty t : Ty) (f : Form)
        (aim : Aim) (root i : ℕ) (world : World) → HasForm facts ty f → HasBlocksAlone f →
        is_declared_as ty (kind_of facts ty) ≡ true → is_held (kind_of facts ty) ≡ true →
        field_at (kind_of facts ty) i ≡ Some t → AimsAt os world may root aim f →
        AimsAt os world may root (PartOf aim i) (form_of facts t) }
    ensures element { (os : List Owner) (may : Bool) (facts : Facts) (ty t : Ty) (f : Form)
        (aim : Aim) (root : ℕ) (z : ℤ) (world : World) → HasForm facts ty f →
        element_of (kind_of facts ty) ≡ Some t → AimsAt os world may root aim f →
        AimsAt os world may root (ItemOf aim z) (form_of facts t) }
    ensures owned { (os : List Owner) (o : Owner) (world : World) (t : Territory os world) →
        Chain os world o → Owns os t.blocks o world }
    ensures read { (os : List Owner) (may : Bool) (root : ℕ) (steps : List Step) (f : Form)
        (l : Location) (world : World) → Territory os world → Found os world may root steps f l → Read f l world }
    ensures fetched { (f : Form) (l : Location) (world : World) → Read f l world →
        Sure (fetched l) (Fetched f world) world }
    ensures put { (os : List Owner) (root : ℕ) (steps : List Step) (f : Form) (l : Location) (v : Value)
        (bs : List ℕ) (world : World) (t : Territory os world) → hooked f ≡ false →
        Found os world true root steps f l → Has world Constant f v bs →
        Sure (put l v) (λ x after. Moves os [] t.blocks world after) world }
    ensures updated { (os : List Owner) (root : ℕ) (steps : List Step) (l : Location) (next : ℤ → Deed Value)
        (world : World) (t : Territory os world) → Found os world true root steps plain l →
        ((z : ℤ) → Sure (next z) (λ x after. (after ≡ world) × Has world Constant plain x []) world) →
        Sure (updated l next) (λ x after. Moves os [] t.blocks world after) world }
{}

/// Values with blocks are copied, made, put into cells, taken out of them, and trade places.
pub fn rows_on_cells()
    ensures copied { (os : List Owner) (f : Form) (l : Location) (world : World)
        (t : Territory os world) → Read f l world →
        Sure (copied f l) (HandsOut f os [] t.blocks world) world }
    ensures text { (os : List Owner) (text : List ℕ) (world : World) (t : Territory os world) →
        Sure (fresh_text text) (HandsOut block os [] t.blocks world) world }
    ensures sequence { (os : List Owner) (f : Form) (vs : Values) (ds : List ℕ) (n : ℕ)
        (world : World) (t : Territory os world) → HasEach world Full f (count vs) 0 vs ds →
        Distinct ds → Strange ds t.blocks → ClearOf ds os →
        Sure (fresh (count vs) n (Elements vs)) (HandsOut (elements f) os ds t.blocks world) world }
    ensures copies_over { (os : List Owner) (f : Form) (to from : Location) (world : World)
        (t : Territory os world) → Chain os world (record { form = f; at = to }) →
        Chain os world (record { form = f; at = from }) →
        Sure (assigned f to (Place from)) (λ x after. Moves os [] t.blocks world after) world }
    ensures takes { (os : List Owner) (f : Form) (x : Value) (l : Location) (world : World)
        (t : Territory os world) → Chain os world (record { form = f; at = l }) →
        (under : UnderWay f x os t.blocks world) →
        Sure (assigned f l (Given x)) (λ u after. Moves os under.given t.blocks world after) world }
    ensures swapped { (os : List Owner) (f : Form) (l m : Location) (world : World)
        (t : Territory os world) → Chain os world (record { form = f; at = l }) →
        Chain os world (record { form = f; at = m }) →
        Sure (swapped l m) (λ x after. Moves os [] t.blocks world after) world }
    ensures appended { (os : List Owner) (more : List ℕ) (l : Location) (world : World)
        (t : Territory os world) → Chain os world (record { form = block; at = l }) →
        Sure (appended more l) (λ u after. Moves os [] t.blocks world after) world }
    ensures line { (os : List Owner) (input : List ℕ) (l : Location) (world : World)
        (t : Territory os world) → Chain os world (record { form = block; at = l }) →
        Sure (line_into l input)
        (λ x after. Has after Full plain x [] × Moves os [] t.blocks world after) world }
    ensures length { (os : List Owner) (f : Form) (n : ℕ) (l : Location) (world : World)
        (t : Territory os world) → HasBlocksAlone f →
        Chain os world (record { form = elements f; at = l }) →
        Sure (sequence_to f n l world) (λ u after. Moves os [] t.blocks world after) world }
    ensures added { (os : List Owner) (f : Form) (x : Value) (l : Location) (world : World)
        (t : Territory os world) → Chain os world (record { form = elements f; at = l }) →
        (under : UnderWay f x os t.blocks world) →
        Sure (added f x l) (λ u after. Moves os under.given t.blocks world after) world }
    ensures popped { (os : List Owner) (f : Form) (l : Location) (world : World)
        (t : Territory os world) → Chain os world (record { form = elements f; at = l }) →
        Sure (shortened f (length_of (load world l)) l world) (HandsOut f os [] t.blocks world)
        world }
    ensures assigned { (os : List Owner) (may : Bool) (root : ℕ) (steps : List Step)
        (f : Form) (to from : Location) (world : World) (t : Territory os world) → hooked f ≡ true →
        Chain os world (record { form = f; at = to }) → Found os world may root steps f from →
        Sure (assigns f to (Place from)) (λ x after. Moves os [] t.blocks world after) world }
    ensures away { (os : List Owner) (f : Form) (x : Value) (l : Location) (world : World)
        (t : Territory os world) → Chain os world (record { form = f; at = l }) →
        Has world Full f x [] → Sure (exchanged l x) (HandsOut f os [] t.blocks world) world }
{}

/// A part of a body keeps to its cells. Its places are declared and are over, values wait and are
/// taken up, temporaries end with their group, and what waits stays as it is while another part
/// runs.
pub fn parts_of_bodies()
    ensures moved { (r : Region) (ms gs : List Owner) (first places : ℕ) (nodes old : List ℕ)
        (start now after : World) (s : Stage r ms gs first places nodes old start now) →
        Moves (ms ++ gs) [] s.runs.territory.blocks now after →
        Stage r ms gs first places nodes old start after }
    ensures took { (f : Form) (x : Value) (r : Region) (ms gs : List Owner) (first places : ℕ)
        (nodes old : List ℕ) (start now after : World)
        (h : Holding f x r ms gs first places nodes old start now) →
        Moves (ms ++ gs) h.under.given h.stage.runs.territory.blocks now after →
        Stage r ms gs first places nodes old start after }
    ensures handed_out { (f : Form) (x : Value) (r : Region) (ms gs : List Owner)
        (first places : ℕ) (nodes old : List ℕ) (start now after : World)
        (s : Stage r ms gs first places nodes old start now) →
        HandsOut f (ms ++ gs) [] s.runs.territory.blocks now x after →
        Holding f x r ms gs first places nodes old start after }
    ensures declared { (f : Form) (x : Value) (r : Region) (ms gs : List Owner)
        (first places n : ℕ) (nodes old : List ℕ) (start now : World) →
        Holding f x r ms gs first places nodes old start now → first ≤ n → n < first + places →
        r.places n ≡ true → NoBaseOf (Standing r.level n) (ms ++ gs) →
        Stage r (record { form = f; at = at_base (Standing r.level n) } ∷ ms) gs first places nodes
        old start (changed (Opens r.level n (Holds x)) now) }
    ensures filled { (f : Form) (v : Value) (r : Region) (ms gs : List Owner)
        (first places n : ℕ) (nodes old : List ℕ) (start : World) (here : Here) (s : State) →
        here.level ≡ r.level → Holding f v r ms gs first places nodes old start s.world →
        first ≤ n → n < first + places → r.places n ≡ true →
        NoBaseOf (Standing r.level n) (ms ++ gs) →
        Comes (λ u after. Stage r (record { form = f; at = at_base (Standing r.level n) } ∷ ms) gs first places nodes
        old start after) (λ way after. ⊥) (fill here n v s) }
    ensures copied { (r : Region) (ms gs : List Owner) (first places : ℕ) (nodes old : List ℕ)
        (start : World) (here : Here) (place : Declared) (l : Location) (s : State) →
        here.level ≡ r.level → Stage r ms gs first places nodes old start s.world →
        first ≤ place.number → place.number < first + places → r.places place.number ≡ true →
        NoBaseOf (Standing r.level place.number) (ms ++ gs) →
        Read (form_of here.facts place.of) l s.world →
        (l.base ≡ Standing r.level place.number → ⊥) →
        Comes (λ u after. Stage r (record { form = form_of here.facts place.of; at = at_base (Standing r.level place.number) } ∷ ms) gs first places nodes
        old start after) (λ way after. ⊥) (fill_from here place l s) }
    ensures result { (v : Value) (r : Region) (ms gs : List Owner) (first places : ℕ)
        (nodes old : List ℕ) (start : World) (here : Here) (place : Declared) (s : State) →
        Holding (form_of here.facts place.of) v r ms gs first places nodes old start s.world →
        Chain (ms ++ gs) s.world (record { form = form_of here.facts place.of; at = place_at here.level place.number }) →
        Comes (λ x after. Stage r ms gs first places nodes old start after) (λ way after. ⊥)
        (result_gets true (Some place) here v s) }
    ensures read { (r : Region) (ms gs : List Owner) (first places : ℕ) (nodes old : List ℕ)
        (start : World) (may : Bool) (root : ℕ) (aim : Aim) (here : Here) (how : Use) (path : Path)
        (s : State) → here.level ≡ r.level → r.nodes (node_at path).number ≡ true →
        NoBaseOf (Waiting r.level (node_at path).number) (ms ++ gs) →
        Stage r ms gs first places nodes old start s.world →
        AimsAt (ms ++ gs) s.world may root aim (form_for here.facts (type_at path)) →
        Comes (Used (gives_hooked here.facts (type_at path)) how (form_for here.facts (type_at path))
        (node_at path).number r ms gs first places nodes old start)
        (λ way after. ⊥) (read_by here how path aim s) }
    ensures made { (f : Form) (how : Use) (node : ℕ) (deed : Deed Value) (r : Region)
        (ms gs : List Owner) (first places : ℕ) (nodes old : List ℕ) (start now : World) →
        r.nodes node ≡ true → NoBaseOf (Waiting r.level node) (ms ++ gs) →
        Sure deed (λ v after. Holding f v r ms gs first places nodes old start after) now →
        Sure (used_as how r.level node deed) (Made how f node r ms gs first places nodes old start)
        now }
    ensures waits { (f : Form) (x : Value) (r : Region) (ms gs : List Owner)
        (first places node : ℕ) (nodes old : List ℕ) (start now : World) → r.nodes node ≡ true →
        Holding f x r ms gs first places nodes old start now →
        NoBaseOf (Waiting r.level node) (ms ++ gs) →
        Stage r (record { form = f; at = at_base (Waiting r.level node) } ∷ ms) gs first places
        (node ∷ without_node nodes node) old start (changed (Waits r.level node (Holds x)) now) }
    ensures taken_up { (f : Form) (r : Region) (ms gs : List Owner) (first places node : ℕ)
        (nodes old : List ℕ) (start now : World) → r.nodes node ≡ true →
        Stage r (record { form = f; at = at_base (Waiting r.level node) } ∷ ms) gs first places
        nodes old start now →
        Up f node r ms gs first places nodes old start now (changed (Leaves r.level node) now) }
    ensures over { (f : Form) (r : Region) (ms gs : List Owner) (first places n : ℕ)
        (nodes old : List ℕ) (start now : World) → r.places n ≡ true →
        Stage r (record { form = f; at = at_base (Standing r.level n) } ∷ ms) gs first places nodes
        old start now →
        Sure (place_ends f r.level n)
        (λ u after. Stage r ms gs first places nodes old start after) now }
    ensures group { (r : Region) (ms ns gs : List Owner) (first places : ℕ) (nodes old : List ℕ)
        (start : World) (ws : List Wait) (flow : Flow) →
        AllMine r ws → Ends r.level nodes ws ms ns → (s : State) →
        Stage r ms gs first places nodes old start s.world →
        Comes (λ u after. Stage r ns gs first places (without_waits nodes ws) old start after)
        (λ way after. ⊥) (all_end r.level flow ws s) }
    ensures absorbed { (r inner : Region) (ms ks gs : List Owner) (first places : ℕ)
        (nodes old : List ℕ) (start now : World) → Wider r inner → AreOwn r ks →
        Stage inner ms (ks ++ gs) first places nodes old start now →
        Stage r (ms ++ ks) gs first places nodes old start now }
{}

/// An expression without calls is never at a fault: it comes to its value, of its type, and what it
/// leaves waits for its group; likewise a path. Asked is that it is typed, and what `Asked` says.
/// The places in scope have cells where their names have. As a statement of a body it may change
/// what stands in the body's cells, and leaves nothing that waits.
pub fn expressions()
    ensures value { (here : Here) (scope : Scope) (limits : Limits)
        (root : (global : Bool) → ℕ → ℕ) (first places : ℕ) (os : List Owner) →
        FactsOfTheirSort here.facts → (e : Expr) (how : Use) →
        is_typed (known_at here scope) e ≡ true → Asked here.facts limits NoCalls e →
        Distinct (value_nodes e) →
        ValueSo here (known_at here scope) limits root first places os e how }
    ensures path { (here : Here) (scope : Scope) (limits : Limits)
        (root : (global : Bool) → ℕ → ℕ) (first places : ℕ) (os : List Owner) →
        FactsOfTheirSort here.facts → (path : Path) →
        is_typed_path (known_at here scope) path ≡ true → AskedAt here.facts limits NoCalls path →
        Distinct (path_nodes path) →
        AimSo here (known_at here scope) limits root first places os path }
    ensures scene { (here : Here) (scope : Scope) (limits : Limits) (ls gs : List Owner)
        (world : World) → Named here.facts limits.kept world here.level scope.places ls →
        Named here.facts (λ n. false) world 0
        (seen_of (limits.seen true) (take scope.filled scope.globals)) gs →
        HasScene here scope limits (ls ++ gs) world }
    ensures statement { (here : Here) (scope : Scope) (limits : Limits)
        (root : (global : Bool) → ℕ → ℕ) (own_places own_nodes : ℕ → Bool) (first places : ℕ)
        (ks gs : List Owner) (nodes old : List ℕ) (start : World) (value : Expr) →
        ValueSo here scope limits root first places (ks ++ gs) value Owned →
        Distinct (value_nodes value) → gives_hooked here.facts (type_of value) ≡ false →
        ((n : ℕ) → Member n (value_nodes value) → own_nodes n ≡ true) →
        ((n : ℕ) → Member n nodes → Member n (value_nodes value) → ⊥) →
        AllOwners (λ o. IsOutside (at_nodes here.level (value_nodes value)) o.at.base) (ks ++ gs) →
        AreOwn (body_region here.level own_places own_nodes) ks →
        length start.frames ≡ suc here.level → (s : State) →
        InBody (body_region here.level own_places own_nodes) ks gs first places nodes old start
        s.world → Scene here scope limits root (ks ++ gs) s.world →
        Comes (λ u after. InBody (body_region here.level own_places own_nodes) ks gs first places nodes old start after)
        (λ way after. ⊥) (exec (Do value) here s) }
    ensures distinct { (h : Scope) (from to : ℕ) (e : Expr) → is_typed h e ≡ true →
        rise_to from to (total lists node_numbers e) ≡ true → Distinct (value_nodes e) }
{}

/// A call begins with cells for the values that were handed over to it.
pub fn entered()
    ensures { (os : List Owner) (fs : List Form) (slots : List Slot) (given : List ℕ)
        (level n : ℕ) (world after : World) (t : Territory os world) →
        ((b : Base) (x : Value) → IsBase world b x → IsBase after b x) →
        AllOwners (λ o. IsBelow level o.at.base) os → Handed os t.blocks world fs slots given →
        StandThere after level n slots → Territory (own_cells level n fs slots ++ os) after }
{}

/// A call as a whole: its frame goes, with what it had for itself, and its caller's cells may have
/// other values.
pub fn calls_as_a_whole()
    ensures { (r : Region) (gs ms ns : List Owner) (first places : ℕ) (nodes old : List ℕ)
        (here : Here) (f : Option Form) (globals : List Declared) (params : List Param) (body : Body)
        (slots : List Slot) (s : State) → here.level ≡ r.level →
        length s.world.frames ≡ r.level → AllOwners (λ g. IsBelow r.level g.at.base) gs →
        ParamsEnd r here (with_frame s.world (frame_of here.facts body slots)) params ms ns →
        Result here ns f →
        ((now : State) → now.world ≡ with_frame s.world (frame_of here.facts body slots) →
        Comes (λ u after. Stage r ms gs first places nodes old (with_frame s.world (frame_of here.facts body slots)) after)
        (λ way after. NotRaised way × Stage r ms gs first places nodes old (with_frame s.world (frame_of here.facts body slots)) after)
        (exec_all body.stmts here now)) →
        Comes (λ v after. CameBack gs old s.world v after f) (λ way after. ⊥)
        (entered_body globals params body slots here s) }
{}

/// What a call leaves of the cells that it worked on becomes of all its caller's, with the values
/// that were handed over to it.
pub fn brought_back()
    ensures { (os ms : List Owner) (world : World) (t : Territory os world)
        (w : Works os ms t.blocks world) (f : Option Form) (given old : List ℕ) (v : Value)
        (after : World) → Strange given t.blocks → ClearOf given os →
        ((k : ℕ) → Member k old → Member k given ⊎ Member k w.territory.blocks) →
        ((k : ℕ) → times k old ≡ times k given + times k w.territory.blocks) →
        CameBack ms old world v after f → CallGives os given t.blocks world v after f }
{}
