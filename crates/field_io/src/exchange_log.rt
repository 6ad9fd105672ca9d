ghost use Rattle.std.specs.Prelude.{◌≡◌, ◌≤◌, ◌++◌, ◌∷◌, [], Some, None, length, IfOk, OnOk, OnErr};
ghost use Rattle.field_io.specs.Exchanges.{IsTold, Makes, change_last, dialed, sent_on, taken_on, failed_at};

use crate::{Exchange, Failed, Stage};
use field_text::{Items, NoMemory, Text};
use std::alloc::Global;
use std::marker::Model;

/// The exchanges that a dialer in memory carried, for as long as it tells them. Where memory for one more byte is
/// refused, the log is told no longer.
#[derive(Debug, Drop)]
pub struct ExchangeLog {
    alloc: Global,
    past: Items<Exchange>,
    last: Option<Exchange>,
    is_told: bool,
}

impl Model for ExchangeLog {
    ghost use Rattle.std.specs.Prelude.{◌≡◌, List, [], Option, Some, None, ◌++◌, if◌then◌else◌};
    ghost use Rattle.std.specs.Option.{option_to_list};
    ghost use Rattle.field_io.specs.declared.exchange.Exchange.{Exchange};

    ghost Value = { Option (List Exchange) };

    ghost view = { λ l. if l.is_told then Some (l.past ++ option_to_list l.last) else None };

    ghost invariant = { λ l. l.last ≡ None → l.past ≡ [] };
}

impl ExchangeLog {
    pub fn new(alloc: Global) -> ExchangeLog
        ensures { result ≡ Some [] }
    {
        ExchangeLog {
            alloc,
            past: Items::new(alloc),
            last: None,
            is_told: true,
        }
    }

    /// Adds the exchange of a dial.
    pub fn dialed(&mut self, authority: &Text, reached: Result<(), Failed>) -> Result<(), NoMemory>
        ensures made { Makes self.old self.new (λ xs. xs ++ dialed authority.now reached ∷ []) }
        ensures told { OnOk result (IsTold self.old → IsTold self.new) }
        ensures forgotten { OnErr result (self.new ≡ None) }
    {
        let Ok(authority) = authority.copy(self.alloc) else {
            return Err(self.forget());
        };
        let next = Exchange {
            authority,
            sent: Items::new(self.alloc),
            taken: Items::new(self.alloc),
            failed: match reached {
                Ok(()) => None,
                Err(Failed) => Some(Stage::Dial),
            },
            ended: false,
        };
        if let Some(last) = self.last.replace(next)
            && self.past.push(last).is_err()
        {
            return Err(self.forget());
        }
        Ok(())
    }

    /// Adds a send of the front of these bytes to the last exchange.
    #[tactic(auto, using(crate::proofs::LastItem::change_last_snoc))]
    pub fn sent(&mut self, bytes: &[u8], count: Result<usize, Failed>) -> Result<(), NoMemory>
        requires { IfOk count (λ n. n ≤ length bytes.now) }
        ensures made { Makes self.old self.new (change_last (sent_on bytes.now count)) }
        ensures told { OnOk result (IsTold self.old → IsTold self.new) }
        ensures forgotten { OnErr result (self.new ≡ None) }
    {
        if let Some(last) = &mut self.last
            && add_sent(self.alloc, last, bytes, count).is_err()
        {
            return Err(self.forget());
        }
        Ok(())
    }

    /// Adds a take into the front of this buffer to the last exchange.
    #[tactic(auto, using(crate::proofs::LastItem::change_last_snoc))]
    pub fn taken(&mut self, buf: &[u8], count: Result<usize, Failed>) -> Result<(), NoMemory>
        requires { IfOk count (λ n. n ≤ length buf.now) }
        ensures made { Makes self.old self.new (change_last (taken_on buf.now count)) }
        ensures told { OnOk result (IsTold self.old → IsTold self.new) }
        ensures forgotten { OnErr result (self.new ≡ None) }
    {
        if let Some(last) = &mut self.last
            && add_taken(self.alloc, last, buf, count).is_err()
        {
            return Err(self.forget());
        }
        Ok(())
    }

    /// Tells nothing from now on.
    pub fn forget(&mut self) -> NoMemory
        ensures { self.new ≡ None }
    {
        self.is_told = false;
        NoMemory
    }
}

fn add_sent(
    alloc: Global,
    x: &mut Exchange,
    bytes: &[u8],
    count: Result<usize, Failed>,
) -> Result<(), NoMemory>
    requires { IfOk count (λ n. n ≤ length bytes.now) }
    ensures { OnOk result (x.new ≡ sent_on bytes.now count x.old) }
{
    match count {
        Ok(count) => x.sent.append(Items::from_slice(alloc, &bytes[..count])?)?,
        Err(Failed) => add_failure(x, Stage::Send),
    }
    Ok(())
}

fn add_taken(
    alloc: Global,
    x: &mut Exchange,
    buf: &[u8],
    count: Result<usize, Failed>,
) -> Result<(), NoMemory>
    requires { IfOk count (λ n. n ≤ length buf.now) }
    ensures { OnOk result (x.new ≡ taken_on buf.now count x.old) }
{
    match count {
        Ok(count) => {
            x.taken.append(Items::from_slice(alloc, &buf[..count])?)?;
            x.ended = x.ended || count == 0;
        }
        Err(Failed) => add_failure(x, Stage::Take),
    }
    Ok(())
}

// The first failure stays.
fn add_failure(x: &mut Exchange, stage: Stage)
    ensures { x.new ≡ failed_at stage x.old }
{
    if x.failed.is_none() {
        x.failed = Some(stage);
    }
}
