// Sizes of blocks.
ghost use Rattle.std.specs.Prelude.{◌≡◌, ◌+◌, ◌<◌, ℕ, IfSome, IfNone};
ghost use Rattle.nim_types.specs.Blocks.{IsBlockSize, IsClass};

/// The bytes before a block's payload.
pub const HEADER_BYTES: u32 = 8;

/// The smallest block, in bytes.
pub const LEAST_BLOCK: u32 = 16;

/// The largest block, in bytes.
pub const MOST_BLOCK: u32 = 16_777_216;

/// The size of the smallest block that holds a payload of so many bytes; None above the largest.
pub fn class_of(bytes: u64) -> Option<u32>
    ensures some { IfSome result (λ size. IsClass bytes size) }
    ensures none { IfNone result (MOST_BLOCK < bytes + HEADER_BYTES) }
{
    let need = bytes.saturating_add(u64::from(HEADER_BYTES));
    if need > u64::from(MOST_BLOCK) {
        return None;
    }
    let mut size = LEAST_BLOCK;
    while u64::from(size) < need {
        size *= 2;
    }
    Some(size)
}
