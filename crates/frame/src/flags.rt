// The flag byte, and the standing and the elapsed time that it tells.
ghost use Rattle.std.specs.Prelude.{◌≡◌, ◌<◌};
ghost use Rattle.frame.specs.Flags.{has, flags_right, interval_right, standing_bits, elapsed_bits, standing_at, elapsed_at};

use report::{Elapsed, Standing};

// The flag bits, from the lowest. No `From` between a byte and what it tells: it holds the standing and the form of the elapsed time
// at once, and the numbers of the elapsed time stand elsewhere in the frame.
const ACTIVE: u32 = 0;

const SWITCH_FORM: u32 = 1;

const INTERVAL_PRESENT: u32 = 2;

const RELEASED: u32 = 3;

// Whether bit k of a byte is set.
fn bit(byte: u8, k: u32) -> bool
    requires { k < 8 }
    ensures { result ≡ has k byte }
{
    byte >> k & 1 == 1
}

// Whether a byte's bits may stand together as flags.
pub(crate) fn flags_right(flags: u8) -> bool
    ensures { result ≡ flags_right flags }
{
    flags < 16
        && (!bit(flags, INTERVAL_PRESENT) || bit(flags, SWITCH_FORM))
        && !(bit(flags, RELEASED) && bit(flags, ACTIVE))
}

// Whether the interval is 0 exactly where the flags say that there is none.
pub(crate) fn interval_right(flags: u8, interval: u32) -> bool
    ensures { result ≡ interval_right flags interval }
{
    bit(flags, INTERVAL_PRESENT) == (interval != 0)
}

// The standing that right flags tell.
pub(crate) fn standing_of(flags: u8) -> Standing
    ensures { result ≡ standing_at flags }
{
    if bit(flags, ACTIVE) {
        Standing::Active
    } else if bit(flags, RELEASED) {
        Standing::Released
    } else {
        Standing::Ended
    }
}

// The elapsed time in the form that right flags tell.
pub(crate) fn elapsed_of(flags: u8, time: u32, interval: u32) -> Elapsed
    ensures { result ≡ elapsed_at flags time interval }
{
    if bit(flags, SWITCH_FORM) {
        Elapsed::Switched {
            time,
            interval: bit(flags, INTERVAL_PRESENT).then_some(interval),
        }
    } else {
        Elapsed::Plain(time)
    }
}

// The flags that say the standing: bits 0 and 3.
pub(crate) fn standing_bits(standing: Standing) -> u8
    ensures { result ≡ standing_bits standing }
{
    match standing {
        Standing::Active => 1 << ACTIVE,
        Standing::Ended => 0,
        Standing::Released => 1 << RELEASED,
    }
}

// The flags that say the form of the elapsed time: bits 1 and 2.
pub(crate) fn elapsed_bits(elapsed: Elapsed) -> u8
    ensures { result ≡ elapsed_bits elapsed }
{
    match elapsed {
        Elapsed::Plain(_) => 0,
        Elapsed::Switched { interval: None, .. } => 1 << SWITCH_FORM,
        Elapsed::Switched {
            interval: Some(_),
            ..
        } => 1 << SWITCH_FORM | 1 << INTERVAL_PRESENT,
    }
}
