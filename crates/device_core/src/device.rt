ghost use Rattle.std.specs.Prelude.{option_to_list, List, ◌≡◌, ◌≤◌, ◌+◌, ◌++◌, ◌∷◌, [], ◌<◌, ℕ, length, take, Some};
ghost use Rattle.std.specs.Prelude.{None, Ok, Err, IsTrue, IfOk, IfErr, IsErrOf, OnOk};
ghost use Rattle.entry_codec.specs.Spelling.{spelling};
ghost use Rattle.device_journal.specs.Frames.{end_of, limit};
ghost use Rattle.field_text.specs.Steps.{Tells};
ghost use Rattle.device_rules.specs.Answers.{answer_to};
ghost use Rattle.device_rules.specs.Due.{busy_of, due_for};
ghost use Rattle.device_rules.specs.Opened.{is_opening};
ghost use Rattle.device_rules.specs.Prepared.{Prepares, entry_of};
ghost use Rattle.device_rules.specs.Refused.{rule_of};
ghost use Rattle.device_state.specs.State.{initial};
ghost use Rattle.device_core.specs.Device.{IsLoaded};
ghost use Rattle.device_core.specs.Images.{payloads_of};
ghost use Rattle.device_journal.specs.Moments.{LeavesFrom, LeavesAsRead, IsAsRead, synced_at};
ghost use Rattle.device_core.specs.Crash.{AddsOnly, Crash, HasAtLeast, HasCrash, LeavesUnopened};
ghost use Rattle.device_rules.specs.Trail.{entries_of, IsLegal, replay};
ghost use Rattle.device_core.specs.View.{IsOpened, Appends};
ghost use Rattle.device_core.specs.Faults.{ContentReadsAs, HasRoom, IsAskFault, IsOpenFault, IsSubmitFault};

use crate::append::{make_step, prepare_opening, spell_with_room};
use crate::fault::open_fault;
use crate::replay::recover;
use device_journal::{AppendFault, Journal, OpenFault, open_journal};
use device_rules::{
    Marked, Prepared, Query, Refused, SubmitFault, Told, Trail, ask, busy, decide, due,
};
use device_state::State;
use disk_model::Disk;
use entry_form::{Command, Entry, Hand, Opening};
use field_text::Items;
use std::alloc::Global;
use std::marker::Model;

/// A device over a disk.
#[derive(Drop)]
pub struct Device<D: Disk> {
    journal: Journal<D>,
    state: State,
    entries: Vec<Marked>,
    found: u64,
    // the entry whose append met a fault of the disk
    rest: Option<Entry>,
}

impl<D: Disk> Model for Device<D> {
    ghost use Rattle.device_core.specs.View.{DeviceView};

    ghost Value = { DeviceView D };

    ghost use Rattle.device_journal.specs.Journal.{journal_length};
    ghost use Rattle.device_core.specs.Device.{shown, IsKept};

    ghost view = { λ d. shown d.journal d.state d.entries.items d.found d.rest };

    ghost invariant = { λ d. IsKept D.content D.since D.clock (journal_length d.journal)
        (shown d.journal d.state d.entries.items d.found d.rest) };
}

// A device with the entries of a disk's journal.
fn load<D: Disk>(alloc: Global, disk: D) -> Result<Device<D>, (D, OpenFault)>
    ensures loaded { IfOk result IsLoaded }
    ensures moment { IfOk result (λ device. device.opened ≡ synced_at D.clock disk) }
    ensures any_moment { IfOk result (λ device. LeavesFrom D.clock D.since disk device.disk device.opened
        (HasAtLeast (entries_of device.entries) device.found)) }
    ensures as_read { IfOk result (λ device. LeavesFrom D.clock D.since disk device.disk device.opened
        (IsAsRead (D.content disk))) }
    ensures any_moment_err { IfErr result (λ e. LeavesAsRead D.clock D.may D.since (D.content disk) disk e.0) }
    ensures read { IfOk result (λ device. ContentReadsAs D.content disk (Ok (entries_of device.entries))) }
    ensures kept { IfOk result (λ device. D.faults device.disk ≡ D.faults disk) }
    ensures fault { IfErr result (λ e. (opening : Entry) → IsOpenFault D.content D.faults opening disk e.0 e.1) }
{
    let (journal, payloads) = match open_journal(alloc, disk) {
        Ok(opened) => opened,
        Err((disk, fault)) => return Err((disk, fault)),
    };
    match recover(alloc, payloads.as_slice(), journal.opened()) {
        Ok((state, entries)) => {
            let found = entries.len() as u64;
            Ok(Device {
                journal,
                state,
                entries,
                found,
                rest: None,
            })
        }
        Err(fault) => Err((journal.into_disk(), fault)),
    }
}

impl<D: Disk> Device<D> {
    /// Opens the device on a journal, replays its entries, and appends the opening. A refusal gives the disk back. The
    /// limit of entries can't refuse the opening: a journal has fewer bytes than that.
    pub fn open_device(
        alloc: Global,
        disk: D,
        opening: Opening,
    ) -> Result<Device<D>, (D, OpenFault)>
        requires { IsTrue (is_opening opening) }
        ensures opened { IfOk result (IsOpened (Entry.Opened opening)) }
        ensures read { IfOk result (λ device. ContentReadsAs D.content disk
            (Ok (take device.found (entries_of device.entries)))) }
        ensures kept { IfOk result (λ device. D.faults device.disk ≡ D.faults disk) }
        ensures fault { IfErr result (λ e. IsOpenFault D.content D.faults (Entry.Opened opening) disk e.0 e.1) }
        ensures room { IfOk result (λ device. HasRoom (take device.found (entries_of device.entries))
            (Entry.Opened opening)) }

        // The moment of the opening is that right after its first sync.
        ensures moment { IfOk result (λ device. device.opened ≡ synced_at D.clock disk) }

        // Until the first sync a crash leaves what it might have left before; from then on the entries found, or
        // these and the opening.
        ensures any_moment { IfOk result (λ device. LeavesFrom D.clock D.since disk device.disk device.opened
            (HasAtLeast (entries_of device.entries) device.found)) }
        ensures any_moment_err { IfErr result
            (λ e. LeavesUnopened D.clock D.may D.since (D.content disk) (Entry.Opened opening) e.1 disk e.0) }
        ensures crash { IfOk result (HasCrash D.since D.clock) }
    {
        let mut device = load(alloc, disk)?;
        let Some(prepared) = prepare_opening(alloc, &device.state, opening) else {
            return Err((device.into_disk(), OpenFault::NoMemory));
        };
        match device.append(alloc, prepared) {
            Ok(_) => Ok(device),
            Err(fault) => Err((device.into_disk(), open_fault(fault))),
        }
    }

    /// Carries a hand's command out. At `Ok` its entry lasts. After a fault of the disk the device refuses each
    /// command.
    pub fn submit(
        &mut self,
        alloc: Global,
        hand: Hand,
        command: Command,
    ) -> Result<Told, SubmitFault>
        ensures appended { IfOk result
            (λ told. Appends (Entry.Done hand command) told.position told.answer self.old self.new) }
        ensures kept { IfOk result (λ told. D.faults self.new.disk ≡ D.faults self.old.disk) }
        ensures later { D.faults self.old.disk ≤ D.faults self.new.disk }
        ensures fault { IfErr result (IsSubmitFault D.content D.faults (Entry.Done hand command) self.old self.new) }
        ensures failed { (count : ℕ) → self.old.failed ≡ Some count → result ≡ Err (SubmitFault.Failed count) }
        ensures room { OnOk result (HasRoom (entries_of self.old.entries) (Entry.Done hand command)) }
        ensures legal { IsLegal initial (entries_of self.new.entries ++ option_to_list self.new.rest) }
        ensures opened { self.new.opened ≡ self.old.opened }
        ensures stopped { IsErrOf result SubmitFault.DiskFault → (self.new.failed ≡ Some (D.faults self.new.disk))
            × (self.new.rest ≡ Some (Entry.Done hand command)) }

        // A crash at any moment of the call leaves the entries from before it, with the new one or without.
        ensures any_moment { AddsOnly D.since D.clock self.old.disk self.new.disk
            (HasAtLeast (entries_of self.new.entries ++ option_to_list self.new.rest) (length self.old.entries)) }
        ensures durable { IfOk result (λ told. (c : List ℕ) → D.since self.new.disk (D.clock self.new.disk) c
            → HasAtLeast (entries_of self.new.entries) told.position c) }
        ensures crash { HasCrash D.since D.clock self.new }
    {
        if let Some(faults) = self.journal.failed() {
            return Err(SubmitFault::Failed { faults });
        }
        match decide(alloc, &self.state, hand, command) {
            Ok(prepared) => self.append(alloc, prepared),
            Err(why) => Err(SubmitFault::Refused {
                position: self.position(),
                why,
            }),
        }
    }

    // Makes the entry of a step last, and makes the step.
    fn append(&mut self, alloc: Global, prepared: Prepared) -> Result<Told, SubmitFault>
        requires { Prepares self.old.state (entry_of prepared) prepared }
        ensures appended { IfOk result
            (λ told. Appends (entry_of prepared) told.position told.answer self.old self.new) }
        ensures kept { IfOk result (λ told. D.faults self.new.disk ≡ D.faults self.old.disk) }
        ensures later { D.faults self.old.disk ≤ D.faults self.new.disk }
        ensures fault { IfErr result (IsSubmitFault D.content D.faults (entry_of prepared) self.old self.new) }
        ensures refused { (position : ℕ) (why : _) → IsErrOf result (SubmitFault.Refused position why)
            → why ≡ Refused.NoMemory }
        ensures room { OnOk result (HasRoom (entries_of self.old.entries) (entry_of prepared)) }
        ensures legal { IsLegal initial (entries_of self.new.entries ++ option_to_list self.new.rest) }
        ensures opened { self.new.opened ≡ self.old.opened }
        ensures stopped { IsErrOf result SubmitFault.DiskFault → (self.new.failed ≡ Some (D.faults self.new.disk))
            × (self.new.rest ≡ Some (entry_of prepared)) }
        ensures any_moment { AddsOnly D.since D.clock self.old.disk self.new.disk
            (HasAtLeast (entries_of self.new.entries ++ option_to_list self.new.rest) (length self.old.entries)) }
        ensures durable { IfOk result (λ told. (c : List ℕ) → D.since self.new.disk (D.clock self.new.disk) c
            → HasAtLeast (entries_of self.new.entries) told.position c) }
        ensures crash { HasCrash D.since D.clock self.new }
    {
        let Ok(payload) = spell_with_room(
            alloc,
            prepared.entry(),
            &mut self.entries,
            &mut self.state,
        ) else {
            prepared.discard();
            return Err(SubmitFault::Refused {
                position: self.entries.len() as u64,
                why: Refused::NoMemory,
            });
        };
        match self.journal.append(&payload) {
            Ok(moment) => {
                let answer = make_step(&mut self.state, &mut self.entries, prepared, moment);
                let position = self.entries.len() as u64;
                Ok(Told { position, answer })
            }
            Err(AppendFault::Full { length }) => {
                prepared.discard();
                Err(SubmitFault::Full { length })
            }
            Err(AppendFault::Failed { faults }) => {
                prepared.discard();
                Err(SubmitFault::Failed { faults })
            }
            Err(AppendFault::DiskFault) => {
                self.rest = Some(prepared.into_entry());
                Err(SubmitFault::DiskFault)
            }
        }
    }

    fn into_disk(self) -> D
        ensures { result ≡ self.disk }
    {
        let Device {
            journal,
            state: _,
            entries: _,
            found: _,
            rest: _,
        } = self;
        journal.into_disk()
    }

    /// What a hand's query is answered on the device's state, with the number of entries behind which this holds. It
    /// may be refused for want of memory.
    pub fn ask(&self, alloc: Global, hand: Hand, query: &Query) -> Result<Told, SubmitFault>
        ensures told { IfOk result (λ told. (told.position ≡ length self.now.entries)
            × (answer_to self.now.state hand query.now ≡ Ok told.answer)) }
        ensures refused { IfErr result (IsAskFault self.now hand query.now) }
        ensures legal { replay initial (entries_of self.now.entries) ≡ Some self.now.state }
    {
        let position = self.position();
        match ask(alloc, &self.state, hand, query) {
            Ok(answer) => Ok(Told { position, answer }),
            Err(why) => Err(SubmitFault::Refused { position, why }),
        }
    }

    /// How much is due for a hand on the device's state. It takes no memory.
    pub fn due(&self, hand: Hand) -> u64
        ensures due { result ≡ due_for self.now.state hand }
        ensures legal { replay initial (entries_of self.now.entries) ≡ Some self.now.state }
    {
        due(&self.state, hand)
    }

    /// What is due for the workers on the device's state, and how many locks are held. It takes no memory.
    pub fn busy(&self) -> u64
        ensures busy { result ≡ busy_of self.now.state }
        ensures legal { replay initial (entries_of self.now.entries) ≡ Some self.now.state }
    {
        busy(&self.state)
    }

    /// The disk's count of faults.
    pub fn fault_count(&self) -> u64
        ensures count { result ≡ D.faults self.now.disk }
        ensures legal { IsLegal initial (entries_of self.now.entries ++ option_to_list self.now.rest) }
    {
        self.journal.fault_count()
    }

    /// The number of entries.
    pub fn position(&self) -> u64
        ensures count { result ≡ length self.now.entries }
        ensures legal { replay initial (entries_of self.now.entries) ≡ Some self.now.state }
    {
        self.entries.len() as u64
    }

    /// The disk, and the entries with their moments after the initial state. It takes no memory.
    pub fn into_parts(self, alloc: Global) -> (D, Trail)
        ensures disk { result.0 ≡ self.disk }
        ensures start { result.1.start ≡ initial }
        ensures entries { result.1.entries ≡ self.entries }
        ensures legal { replay initial (entries_of self.entries) ≡ Some self.state }
        ensures rest { IsLegal initial (entries_of self.entries ++ option_to_list self.rest) }
        ensures crash { Crash D.since D.clock result.0 self.opened self.found result.1.entries
            (option_to_list self.rest) }
    {
        let Device {
            journal,
            state: _,
            entries,
            found: _,
            rest: _,
        } = self;
        let start = State::initial(alloc);
        let entries = Items::from_vec(entries);
        (journal.into_disk(), Trail { start, entries })
    }
}
