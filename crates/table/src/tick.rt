// A tick that a call may carry.
ghost use Rattle.std.specs.Prelude.{◌≤◌};
ghost use Rattle.report.specs.Limits.{last_tick};

// It is not past the last tick.
#[derive(Clone, Copy)]
pub(crate) struct Tick {
    pub(crate) at: u32,
    ghost in_time: { at ≤ last_tick },
}
