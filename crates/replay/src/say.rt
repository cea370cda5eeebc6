// What a call answered, as text.
use bursts::BurstNumbers;
use report::{Address, Elapsed, Report, Standing};
use rules::{EValues, Order, OrderKind, Reply};
use std::fmt;

// A value of a crate below, to be printed as `replay` does.
#[derive(Clone, Copy, PartialEq, Eq, Debug)]
pub struct Said<T>(pub T);

impl fmt::Display for Said<Reply> {
    fn fmt<W: fmt::Write>(&self, f: &mut fmt::Formatter<W>) -> fmt::Result {
        match self.0 {
            Reply::Refused(refusal) => write!(f, "refused {}", refusal.number()),
            Reply::Done(order) => write!(f, "{}", Said(order)),
            Reply::Took(report) => write!(f, "{}", Said(report)),
        }
    }
}

impl fmt::Display for Said<Address> {
    fn fmt<W: fmt::Write>(&self, f: &mut fmt::Formatter<W>) -> fmt::Result {
        write!(f, "{}.{}", self.0.kind, self.0.number)
    }
}

impl fmt::Display for Said<Order> {
    fn fmt<W: fmt::Write>(&self, f: &mut fmt::Formatter<W>) -> fmt::Result {
        let address = Said(self.0.address);
        match self.0.kind {
            OrderKind::Ended => write!(f, "ended {address}"),
            OrderKind::Nothing => write!(f, "nothing {address}"),
            OrderKind::Advise(set) => write!(f, "advise {address}{}", Said(set)),
            OrderKind::Sound(list) => write!(f, "sound {address} {}", Said(list.numbers())),
        }
    }
}

// A space and a number each, or a dash where it is absent.
impl fmt::Display for Said<EValues> {
    fn fmt<W: fmt::Write>(&self, f: &mut fmt::Formatter<W>) -> fmt::Result {
        for value in self.0.values {
            match value {
                Some(number) => write!(f, " {number}")?,
                None => f.write_str(" -")?,
            }
        }
        Ok(())
    }
}

impl fmt::Display for Said<BurstNumbers> {
    fn fmt<W: fmt::Write>(&self, f: &mut fmt::Formatter<W>) -> fmt::Result {
        let BurstNumbers {
            warning,
            bursts,
            tones,
            gap,
            tone,
            pause,
        } = self.0;
        write!(f, "{warning} {bursts} {tones} {gap} {tone} {pause}")
    }
}

impl fmt::Display for Said<Standing> {
    fn fmt<W: fmt::Write>(&self, f: &mut fmt::Formatter<W>) -> fmt::Result {
        f.write_str(match self.0 {
            Standing::Active => "active",
            Standing::Ended => "last",
            Standing::Released => "released",
        })
    }
}

impl fmt::Display for Said<Elapsed> {
    fn fmt<W: fmt::Write>(&self, f: &mut fmt::Formatter<W>) -> fmt::Result {
        match self.0 {
            Elapsed::Plain(time) => write!(f, "plain time {time}"),
            Elapsed::Switched {
                time,
                interval: None,
            } => write!(f, "switch time {time}"),
            Elapsed::Switched {
                time,
                interval: Some(interval),
            } => write!(f, "switch time {time} interval {interval}"),
        }
    }
}

impl fmt::Display for Said<Report> {
    fn fmt<W: fmt::Write>(&self, f: &mut fmt::Formatter<W>) -> fmt::Result {
        let Report {
            address,
            number,
            party,
            tick,
            standing,
            elapsed,
        } = self.0;
        write!(
            f,
            "report {} #{number} party {party} tick {tick} {} {}",
            Said(address),
            Said(standing),
            Said(elapsed)
        )
    }
}
