// What a run of a runner says of the machine of the definition.
ghost use Rattle.std.specs.Prelude.{ℕ, List};
ghost use Rattle.rv32_isa.specs.declared.image.HookAt.{HookAt};
ghost use Rattle.rv32_isa.specs.Image.{Image};
ghost use Rattle.rv32_isa.specs.State.{State, first_state};
ghost use Rattle.rv32_isa.specs.Machine.{Lives};
ghost use Rattle.rv32_runner.specs.declared.runner.RunEnd.{RunEnd};
ghost use Rattle.rv32_runner.specs.Streams.{Streams, MayGive};
ghost use Rattle.rv32_runner.specs.Runs.{Ran};
ghost use Rattle.rv32_runner.specs.Told.{IsOfMachine, Told, Saw, Causes};

use rv32_isa::machines;

/// Where no source and no sink failed, the machine stands, and is seen, as the answer says after `n`
/// instructions on the bytes that the source gave and any that it may still give, whatever hooks its
/// image has, and the sinks got what it wrote. A stream is named as failed only where its count of
/// faults rose, and no other count rises.
pub fn runs()
    ensures told { (hooks : List HookAt) (n : ℕ) (old : Streams) (s : State) (answer : RunEnd)
        (t : State) (new : Streams) → Ran n old s answer t new → IsOfMachine answer →
        (rest : List ℕ) → MayGive new.input.left new.input.ended rest →
        Told hooks n old s answer t new rest }
    ensures saw { (live : Lives) (image : Image) (n : ℕ) (old : Streams) (answer : RunEnd)
        (t : State) (new : Streams) → Ran n old (first_state image) answer t new →
        IsOfMachine answer → (rest : List ℕ) → MayGive new.input.left new.input.ended rest →
        Saw live image n old answer t new rest }
    ensures causes { (n : ℕ) (old : Streams) (s : State) (answer : RunEnd) (t : State)
        (new : Streams) → Ran n old s answer t new → Causes answer old new }
{
    machines();
}
