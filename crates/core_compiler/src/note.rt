// The size of a file's note.
ghost use Rattle.std.specs.Prelude.{◌≡◌, nat_le};
ghost use Rattle.core_compiler.specs.Limits.{note_bytes};

use nim_plan::Plan;

/// The most bytes of a file's note.
pub const MOST_NOTE_BYTES: usize = 2_097_152;

/// Whether the note of a file under a plan, without hooks, has no more bytes than it may.
pub fn note_fits(plan: &Plan) -> bool
    ensures { result ≡ nat_le (note_bytes plan.now) MOST_NOTE_BYTES }
{
    let sites = plan.sites.as_slice().len();
    let sinks = plan.sinks.as_slice().len();
    let skips = plan.skips.as_slice().len();
    if sites > MOST_NOTE_BYTES || sinks > MOST_NOTE_BYTES || skips > MOST_NOTE_BYTES {
        return false;
    }
    40 + 8 * sites + 4 * sinks + 8 * skips <= MOST_NOTE_BYTES
}
