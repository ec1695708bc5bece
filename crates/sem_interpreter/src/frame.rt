//! The addresses of the frame.

ghost use Rattle.std.specs.Prelude.{◌≡◌};
ghost use Rattle.sem_mir.specs.State.{in_frame, touches_frame, writes_frame};
ghost use Rattle.sem_interpreter.specs.Memory.{some_writes};

/// How many bytes below the stack pointer at entry are kept for frames.
const FRAME_ROOM: u64 = 2_048;

/// Whether an address is one of the 2,048 below the stack pointer at entry, but not one of those right below it that
/// stack objects take.
pub fn in_frame(entry: u64, area: u64, address: u64) -> bool
    ensures { result ≡ in_frame entry area address }
{
    address < entry && entry - address <= FRAME_ROOM && area < entry - address
}

/// Whether one of the `count` addresses from one on is in the frame. Addresses wrap at 64 bits.
pub fn touches_frame(entry: u64, area: u64, address: u64, count: usize) -> bool
    ensures { result ≡ touches_frame entry area address count }
{
    for k in 0..count {
        if in_frame(entry, area, address.wrapping_add(k as u64)) {
            return true;
        }
    }
    false
}

/// Whether one of an answer's writes is in the frame.
pub fn writes_frame(entry: u64, area: u64, writes: &[Option<(u64, u8)>; 8]) -> bool
    ensures { result ≡ writes_frame entry area (some_writes writes.now) }
{
    for write in writes {
        if let Some((address, _)) = *write {
            if in_frame(entry, area, address) {
                return true;
            }
        }
    }
    false
}
