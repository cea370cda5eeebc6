// What a report link means, and what each of its calls promises.
ghost use Rattle.std.specs.Prelude.{◌≡◌, [], length, nat_lt};
ghost use Rattle.link.specs.Links.{View, Sends, Takes};

use report::{Refusal, Report};

// A place where reports wait, oldest first, for whoever takes them. A refused call leaves the meaning
// as it was; a link of the host's own may yet note that it refused.
pub trait Link {
    // The waiting reports, the free places and the capacity.
    ghost view: { Self → View };

    // Each link shows that an empty list has its whole capacity free.
    ghost whole: { (s : Self) → (view s).waiting ≡ [] → (view s).free ≡ (view s).capacity };

    // Appends a lawful report while a place is free.
    fn send(&mut self, r: Report) -> Result<(), Refusal>
        ensures { Sends (view self.old) r result (view self.new) };

    // Hands out the oldest report.
    fn take(&mut self) -> Result<Report, Refusal>
        ensures { Takes (view self.old) result (view self.new) };

    // Whether a place is free.
    fn has_room(&self) -> bool
        ensures { result ≡ nat_lt 0 (view self.now).free };

    // Whether a report waits.
    fn has_waiting(&self) -> bool
        ensures { result ≡ nat_lt 0 (length (view self.now).waiting) };
}
