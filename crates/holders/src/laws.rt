//! What is done with values by their forms.

ghost use Rattle.std.specs.Prelude.{◌≡◌, ◌<◌, ℕ, true, suc, List, [], length};
ghost use Rattle.nim_types.specs.Forms.{Form, plain, block, elements, row, parts as object, wrapped, Forms};
ghost use Rattle.nim_meaning.specs.Values.{Value, Values, Location, At};
ghost use Rattle.nim_meaning.specs.Values.{count, length_of, item_of, deeper};
ghost use Rattle.nim_meaning.specs.Heap.{Characters, Elements};
ghost use Rattle.nim_meaning.specs.Marks.{Distinct};
ghost use Rattle.nim_meaning.specs.State.{World, State, is_seen, is_full_at};
ghost use Rattle.nim_meaning.specs.Deeds.{Deed, carry};
ghost use Rattle.nim_meaning.specs.Lifted.{ends_at, given_up, copied, assigned, replaced};
ghost use Rattle.nim_meaning.specs.Lifted.{resized, fresh, fresh_text};
ghost use Rattle.nim_meaning.specs.OwnedRows.{appended, added, shortened, sequence_to, line_into};
ghost use Rattle.nim_meaning.specs.Places.{exchanged};
ghost use Rattle.holders.specs.Holders.{held_by, held_in};
ghost use Rattle.holders.specs.Owned.{Full, Constant, Has, HasEach, From, Apart};
ghost use Rattle.holders.specs.Owned.{Cell, PartForm, HasBlocksAlone};
ghost use Rattle.holders.specs.Sure.{Sure, Answered};
ghost use Rattle.holders.specs.Becoming.{Gives, KeepsHolders, Strange, Turns, none};
ghost use Rattle.holders.specs.Beside.{Beside};
ghost use Rattle.holders.specs.Walks.{Ended, GivenUp, Popped};
ghost use Rattle.holders.specs.Leading.{Leads, PartOf};

/// The meaning isn't wrong where it carries out a deed of which anything is sure; and what stands in
/// a cell is there, all of it, with what it has in blocks.
pub fn deeds()
    ensures carried { (deed : Deed Value) (s : State) →
        Sure deed (λ x after. Unit {0}) s.world →
        Answered (λ x after. Unit {0}) (carry deed s) }
    ensures seen { (f : Form) (l : Location) (w v : Value) (bs : List ℕ) (world : World) →
        Cell f l w v bs world → is_seen world l ≡ true }
    ensures full { (f : Form) (l : Location) (w v : Value) (bs : List ℕ) (world : World) →
        Cell f l w v bs world → is_full_at world l ≡ true }
{}

/// A value ends: it gives back its blocks. A copy has blocks of its own. A place gets a value that
/// was handed over, or a copy of one that stands beside it or of its own, and what stood there
/// ends.
pub fn walks()
    ensures ends { (f : Form) (l : Location) (w v : Value) (bs : List ℕ) (world : World) →
        Cell f l w v bs world →
        Sure (ends_at f l) (λ u after. Ended f l w bs world after) world }
    ensures given_up { (f : Form) (v : Value) (bs : List ℕ) (world : World) →
        Has world Full f v bs → Distinct bs →
        Sure (given_up f v) (λ u after. GivenUp v bs world after) world }
    ensures copied { (f : Form) (from : Location) (u v : Value) (bs : List ℕ) (world : World) →
        From world from u v → Has world Constant f v bs →
        Sure (copied f from)
        (λ x after. Gives f x [] world after × KeepsHolders none (λ k. held_by k x) world after)
        world }
    ensures constant { (f : Form) (v : Value) (bs : List ℕ) (world : World) →
        Has world Full f v bs → Has world Constant f v bs }
    ensures replaced { (f : Form) (l : Location) (w v x : Value) (old new : List ℕ)
        (world : World) →
        Cell f l w v old world → Has world Full f x new → Distinct new → Strange new old →
        Apart l.base new →
        Sure (replaced f l x) (λ u after. Turns (λ k. held_by k x) none f l w new old world after)
        world }
    ensures itself { (f : Form) (l : Location) (w v : Value) (bs : List ℕ) (world : World) →
        Cell f l w v bs world →
        Sure (assigned f l (At l)) (λ u after. Turns none none f l w [] bs world after) world }
    ensures beside { (f : Form) (to from : Location) (w u v0 v : Value) (old bs : List ℕ)
        (world : World) →
        Cell f to w v0 old world → From world from u v → Has world Constant f v bs →
        Beside to from old bs →
        Sure (assigned f to (At from)) (λ x after. Turns none none f to w [] old world after)
        world }
    ensures exchanged { (f : Form) (l : Location) (w v x : Value) (old new : List ℕ)
        (world : World) →
        Cell f l w v old world → Has world Full f x new → Distinct new → Apart l.base new →
        Sure (exchanged l x)
        (λ y after. (y ≡ v) × Turns (λ k. held_by k x) (λ k. held_by k v) f l w new [] world after)
        world }
{}

/// A text is made, gets other characters, and more of them; and a line of the input.
pub fn texts()
    ensures made { (t : List ℕ) (world : World) →
        Sure (fresh_text t)
        (λ x after. Gives block x [] world after × KeepsHolders none (λ k. held_by k x) world after)
        world }
    ensures resized { (t : List ℕ) (l : Location) (w v : Value) (bs : List ℕ) (world : World) →
        Cell block l w v bs world →
        Sure (resized (length t) (length t) (Characters t) l)
        (λ u after. Turns none none block l w [] bs world after) world }
    ensures appended { (more : List ℕ) (l : Location) (w v : Value) (bs : List ℕ)
        (world : World) →
        Cell block l w v bs world →
        Sure (appended more l) (λ u after. Turns none none block l w [] bs world after) world }
    ensures line { (input : List ℕ) (l : Location) (w v : Value) (bs : List ℕ) (world : World) →
        Cell block l w v bs world →
        Sure (line_into l input)
        (λ x after. Has after Full plain x [] × Turns none none block l w [] bs world after)
        world }
{}

/// A sequence is made of elements, gets one more, loses its last one, and gets a length.
pub fn sequences()
    ensures made { (f : Form) (vs : Values) (ds : List ℕ) (bytes : ℕ) (world : World) →
        HasEach world Full f (count vs) 0 vs ds → Distinct ds →
        Sure (fresh (count vs) bytes (Elements vs))
        (λ x after. Gives (elements f) x ds world after
        × KeepsHolders (λ k. held_in k vs) (λ k. held_by k x) world after) world }
    ensures added { (f : Form) (x : Value) (ds : List ℕ) (l : Location) (w v : Value)
        (bs : List ℕ) (world : World) →
        Cell (elements f) l w v bs world → Has world Full f x ds → Distinct ds → Strange ds bs →
        Apart l.base ds →
        Sure (added f x l)
        (λ u after. Turns (λ k. held_by k x) none (elements f) l w ds bs world after) world }
    ensures popped { (f : Form) (n : ℕ) (l : Location) (w v : Value) (bs : List ℕ)
        (world : World) →
        Cell (elements f) l w v bs world → length_of v ≡ suc n →
        Sure (shortened f (suc n) l world) (λ x after. Popped f l w bs world x after) world }
    ensures length { (f : Form) (n : ℕ) (l : Location) (w v : Value) (bs : List ℕ)
        (world : World) →
        HasBlocksAlone f → Cell (elements f) l w v bs world →
        Sure (sequence_to f n l world)
        (λ u after. Turns none none (elements f) l w [] bs world after) world }
{}

/// Parts of rows and objects, elements of sequences, and what is wrapped, have their blocks by
/// themselves too, and what becomes of them becomes of the whole.
pub fn parts()
    ensures row { (n i : ℕ) (f : Form) (l : Location) (w v : Value) (bs : List ℕ)
        (world : World) →
        Cell (row n f) l w v bs world → i < n → PartOf (row n f) l w bs f (deeper l i) world }
    ensures object { (fs : Forms) (f : Form) (i : ℕ) (l : Location) (w v : Value) (bs : List ℕ)
        (world : World) →
        Cell (object fs) l w v bs world → PartForm fs i f →
        PartOf (object fs) l w bs f (deeper l i) world }
    ensures element { (f : Form) (i : ℕ) (l : Location) (w v : Value) (bs : List ℕ)
        (world : World) →
        Cell (elements f) l w v bs world → i < length_of v →
        PartOf (elements f) l w bs f (item_of v l i) world }
    ensures wrapped { (f : Form) (l : Location) (w v : Value) (bs : List ℕ) (world : World) →
        Cell (wrapped f) l w v bs world → PartOf (wrapped f) l w bs f l world }
    ensures further { (f g h : Form) (l m n : Location) (w u t : Value) (bs mine inner : List ℕ)
        (world : World) →
        Leads f l w bs g m u mine world → Leads g m u mine h n t inner world →
        Leads f l w bs h n t inner world }
{}
