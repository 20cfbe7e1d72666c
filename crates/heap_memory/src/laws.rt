// The laws of memory where blocks were taken and given.
ghost use Rattle.std.specs.Prelude.{◌≡◌, ◌≢◌, ◌<◌, ◌≤◌, ◌+◌, ℕ, nat_le, List, length, Some};
ghost use Rattle.nim_meaning.specs.Heap.{Class, class_for};
ghost use Rattle.rv32_isa.specs.Regions.{HasRegions};
ghost use Rattle.word_code.specs.Memory.{Memory as WordMemory, as_state};
ghost use Rattle.word_code.specs.RoutineTable.{IsRewritten};
ghost use Rattle.heap_memory.specs.HeapState.{Standing, Stands, IsHeap};
ghost use Rattle.heap_memory.specs.HeapRoutines.{class_of};
ghost use Rattle.heap_memory.specs.HeapUse.{IsThere, AreDistant, IsRefilled, IsElsewhere};
ghost use Rattle.heap_memory.specs.Walk.{WalksRight};

/// Where blocks were taken and given, the walk over the heap finds those that are live. Each stands
/// in the heap, apart from the others, and stays where memory changes elsewhere; where its payload is
/// written, the others stay. What stands is said by what each identity has. The sizes are the meaning's:
/// a payload has the same class there, and fits in a block where it fits in the block's class.
pub fn heaps()
    ensures walks { (kinds at : ℕ) (classes : List Class) (stands : Stands) (m : WordMemory) →
        IsHeap at classes stands m → 0 < kinds →
        ((k : ℕ) (s : Standing) → stands k ≡ Some s → s.kind < kinds) →
        WalksRight kinds stands m.heap }
    ensures there { (at : ℕ) (classes : List Class) (stands : Stands) (m : WordMemory) →
        IsHeap at classes stands m → HasRegions (as_state m) → (k : ℕ) (s : Standing) →
        stands k ≡ Some s → IsThere m s }
    ensures distant { (at : ℕ) (classes : List Class) (stands : Stands) (m : WordMemory) →
        IsHeap at classes stands m → (j k : ℕ) (s t : Standing) → stands j ≡ Some s →
        stands k ≡ Some t → j ≢ k → AreDistant s t }
    ensures places { (at : ℕ) (classes : List Class) (stands : Stands) (m other : WordMemory) →
        IsHeap at classes stands m → HasRegions (as_state m) → HasRegions (as_state other) →
        other.statics ≡ m.statics → other.heap ≡ m.heap → IsHeap at classes stands other }
    ensures elsewhere { (at : ℕ) (classes : List Class) (stands : Stands) (m other : WordMemory)
        (a n : ℕ) → IsHeap at classes stands m → HasRegions (as_state m) →
        HasRegions (as_state other) → IsRewritten m other a n → IsElsewhere at m a n →
        IsHeap at classes stands other }
    ensures same { (at : ℕ) (classes : List Class) (stands others : Stands) (m : WordMemory) →
        IsHeap at classes stands m → ((k : ℕ) → others k ≡ stands k) → IsHeap at classes others m }
    ensures classes { (at : ℕ) (classes : List Class) (stands : Stands) (m : WordMemory) →
        IsHeap at classes stands m → (payload : ℕ) → class_for payload classes ≡ class_of payload }
    ensures rooms { (at : ℕ) (classes : List Class) (stands : Stands) (m : WordMemory) →
        IsHeap at classes stands m → (k : ℕ) (s : Standing) → stands k ≡ Some s → (payload : ℕ) →
        nat_le payload (length s.payload) ≡ nat_le (class_of payload) s.class }
    ensures refilled { (at : ℕ) (classes : List Class) (stands : Stands) (m other : WordMemory)
        (k : ℕ) (s : Standing) (offset n : ℕ) → IsHeap at classes stands m →
        HasRegions (as_state m) → HasRegions (as_state other) → stands k ≡ Some s →
        offset + n ≤ length s.payload → IsRewritten m other (s.place + offset) n →
        IsRefilled at classes stands k s other }
{}
