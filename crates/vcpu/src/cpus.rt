//! The processors of a guest.

ghost use Rattle.std.specs.Prelude.{◌≡◌, ℕ, ◌+◌, ◌==◌, ◌<◌, ◌≤◌, ◌↔◌, true, false, map, set, length, OnOk, OnErr, IfOk};
ghost use Rattle.mig_base.specs.Commands.{is_access};
ghost use Rattle.mig_model.specs.Cpus.{all_woken, idle_answer, idle_processors, is_woken, message_less, outstanding, processor_at, taken_over, woken_answer};
ghost use Rattle.mig_model.specs.Guest.{in_bytes};
ghost use Rattle.vcpu.specs.Processors.{HasMessage};
ghost use Rattle.vcpu.specs.Answers.{is_count, message_answer, outstanding_answer, state_answer};

use crate::fault::NewFault;
use crate::sleepers::Sleepers;
use mig_base::cpu_state::CpuState;
use mig_base::refusal::Refusal;
use mig_base::{Addr, Command, MAX_CPUS, NoMemory, PageNo, Reply};
use std::alloc::Global;
use std::marker::Model;

/// The 1 to 16 processors of a guest, numbered from 0. Only `new`, `copy` and `commands` take memory. A refused call
/// changes nothing.
#[derive(Debug, Drop)]
pub struct Cpus {
    alloc: Global,
    states: Vec<CpuState>,
}

impl Model for Cpus {
    ghost use Rattle.std.specs.Prelude.{List};
    ghost use Rattle.mig_base.specs.declared.cpu_state.CpuState.{CpuState};

    ghost Value = { List CpuState };

    ghost use Rattle.vcpu.specs.Processors.{AreProcessors};

    ghost view = { λ a. a.states.items };

    ghost invariant = { λ a. AreProcessors a.states.items };
}

impl Cpus {
    /// `n` processors, all idle. `NoCpu` unless `n` is 1 to 16; `NoMemory` if the allocation fails.
    pub fn new(alloc: Global, n: u8) -> Result<Self, NewFault>
        ensures cpus { IfOk result (λ cpus. cpus ≡ idle_processors n) }
        ensures no_cpu { (result ≡ Err NewFault.NoCpu) ↔ (is_count n ≡ false) }
    {
        if n == 0 || n > MAX_CPUS {
            return Err(NewFault::NoCpu);
        }
        let states = vec![in alloc; CpuState::Idle; usize::from(n)]?;
        Ok(Cpus { alloc, states })
    }

    /// Equal processors, in memory of their own. `NoMemory` if the allocation fails.
    pub fn copy(&self) -> Result<Self, NoMemory>
        ensures { IfOk result (λ copy. copy ≡ self.now) }
    {
        let states = Vec::from_slice(self.alloc, &self.states)?;
        Ok(Cpus {
            alloc: self.alloc,
            states,
        })
    }

    /// Whether the two guests have equal processors.
    pub fn is_same(&self, other: &Self) -> bool
        ensures { (result ≡ true) ↔ (self.now ≡ other.now) }
    {
        self.states == other.states
    }

    /// The number of processors, 1 to 16.
    pub fn count(&self) -> u8
        ensures count { result ≡ length self.now }
        ensures range { (1 ≤ result) × (result ≤ MAX_CPUS) }
    {
        self.states.len() as u8
    }

    /// The state of processor `k`. `NoCpu` if there is no such processor.
    pub fn state(&self, k: u8) -> Result<CpuState, Refusal>
        ensures answer { result ≡ state_answer self.now k }
        ensures message { IfOk result HasMessage }
    {
        match self.states.get(usize::from(k)) {
            Some(state) => Ok(*state),
            None => Err(Refusal::NoCpu),
        }
    }

    /// The command that processor `k` still has to make, if it sleeps or was woken. `NoCpu` if there is no such processor.
    pub fn outstanding(&self, k: u8) -> Result<Option<Command>, Refusal>
        ensures { result ≡ outstanding_answer self.now k }
    {
        Ok(command_of(self.state(k)?))
    }

    /// For each processor, in the order of their numbers, the command that it still has to make, if any. `NoMemory` if the
    /// allocation fails.
    pub fn commands(&self) -> Result<Vec<Option<Command>>, NoMemory>
        ensures { IfOk result (λ commands. commands.items ≡ map outstanding self.now) }
    {
        let mut commands = Vec::with_capacity(self.alloc, self.states.len())?;
        commands.extend(self.states.iter().map(|state| command_of(*state)))?;
        Ok(commands)
    }

    /// Whether processor `k` may begin a command: `Busy` unless it is idle, `NoCpu` if there is no such processor.
    pub fn ensure_idle(&self, k: u8) -> Result<(), Refusal>
        ensures { result ≡ idle_answer self.now k }
    {
        match self.state(k)? {
            CpuState::Idle => Ok(()),
            _ => Err(Refusal::Busy),
        }
    }

    /// The command that processor `k`, which was woken, must try again. `NoCpu` if there is no such processor, `NotAsleep`
    /// if it is idle or in a map call, `NotWoken` if it still sleeps.
    pub fn woken(&self, k: u8) -> Result<Command, Refusal>
        ensures { result ≡ woken_answer self.now k }
    {
        match self.state(k)? {
            CpuState::Woken(command) => Ok(command),
            CpuState::Asleep(_) => Err(Refusal::NotWoken),
            CpuState::Idle | CpuState::InCall { .. } => Err(Refusal::NotAsleep),
        }
    }

    /// Puts processor `k` to sleep on the page of `command`, which must be a load or a store. `NoCpu` if there is no such
    /// processor, `Busy` unless it is idle.
    pub fn sleep(&mut self, k: u8, command: Command) -> Result<(), Refusal>
        requires { is_access command ≡ true }
        ensures answer { result ≡ idle_answer self.old k }
        ensures ok { OnOk result (self.new ≡ set self.old k (CpuState.Asleep command)) }
        ensures err { OnErr result (self.new ≡ self.old) }
    {
        self.ensure_idle(k)?;
        self.fall_asleep(k, command);
        Ok(())
    }

    /// The same for a processor that is known to be idle.
    pub fn fall_asleep(&mut self, k: u8, command: Command)
        requires cpu { k < length self.old }
        requires idle { processor_at self.old k ≡ CpuState.Idle }
        requires access { is_access command ≡ true }
        ensures { self.new ≡ set self.old k (CpuState.Asleep command) }
    {
        self.put(usize::from(k), CpuState::Asleep(command));
    }

    /// Puts processor `k` into a map call, which returns `reply` once `left` messages, at least one, have been read. `NoCpu` if
    /// there is no such processor, `Busy` unless it is idle.
    pub fn call_sleeps(&mut self, k: u8, reply: Reply, left: u8) -> Result<(), Refusal>
        requires { 0 < left }
        ensures answer { result ≡ idle_answer self.old k }
        ensures ok { OnOk result (self.new ≡ set self.old k (CpuState.InCall reply left)) }
        ensures err { OnErr result (self.new ≡ self.old) }
    {
        self.ensure_idle(k)?;
        self.enter_call(k, reply, left);
        Ok(())
    }

    /// The same for a processor that is known to be idle.
    pub fn enter_call(&mut self, k: u8, reply: Reply, left: u8)
        requires cpu { k < length self.old }
        requires idle { processor_at self.old k ≡ CpuState.Idle }
        requires messages { 0 < left }
        ensures { self.new ≡ set self.old k (CpuState.InCall reply left) }
    {
        self.put(usize::from(k), CpuState::InCall { reply, left });
    }

    /// Returns the command of processor `k`, which was woken, and leaves the processor idle. Refused like `woken`.
    pub fn take(&mut self, k: u8) -> Result<Command, Refusal>
        ensures answer { result ≡ woken_answer self.old k }
        ensures ok { OnOk result (self.new ≡ set self.old k CpuState.Idle) }
        ensures err { OnErr result (self.new ≡ self.old) }
    {
        let command = self.woken(k)?;
        self.go_idle(k);
        Ok(command)
    }

    /// Leaves processor `k`, which was woken, idle: its command is tried again.
    pub fn go_idle(&mut self, k: u8)
        requires cpu { k < length self.old }
        requires woken { is_woken (processor_at self.old k) ≡ true }
        ensures { self.new ≡ set self.old k CpuState.Idle }
    {
        self.put(usize::from(k), CpuState::Idle);
    }

    /// Counts one message of processor `k`'s map call as read. With the last one it returns the reply of the call and leaves the
    /// processor idle. `NoCpu` if there is no such processor, `NotAsleep` unless it is in a map call.
    pub fn message_read(&mut self, k: u8) -> Result<Option<Reply>, Refusal>
        ensures answer { result ≡ message_answer self.old k }
        ensures ok { OnOk result (self.new ≡
            set self.old k (message_less (processor_at self.old k))) }
        ensures err { OnErr result (self.new ≡ self.old) }
    {
        let CpuState::InCall { reply, left } = self.state(k)? else {
            return Err(Refusal::NotAsleep);
        };
        let (state, handed_over) = if left > 1 {
            let left = left - 1;
            (CpuState::InCall { reply, left }, None)
        } else {
            (CpuState::Idle, Some(reply))
        };
        self.put(usize::from(k), state);
        Ok(handed_over)
    }

    /// Wakes the processors that sleep on the page of this number, which may lie past the address space.
    pub fn wake_page(&mut self, page: u64)
        ensures { self.new ≡ all_woken (λ q. q == page) self.old }
    {
        self.wake(Sleepers::OnPage(page));
    }

    /// Wakes the processors that sleep on a page from that of address `start` up to, but not including, that of address `end`.
    pub fn wake_range(&mut self, start: Addr, end: Addr)
        ensures { self.new ≡ all_woken (in_bytes start end) self.old }
    {
        self.wake(Sleepers::Between { start, end });
    }

    /// Wakes the processors that sleep on a page from that of address `start` up to, but not including, that of `start + len`,
    /// which may lie past the greatest address. `len` is in bytes.
    pub fn wake_span(&mut self, start: Addr, len: u64)
        ensures { self.new ≡ all_woken (in_bytes start (start + len)) self.old }
    {
        self.wake(Sleepers::Span { start, len });
    }

    /// Wakes every processor that sleeps.
    pub fn wake_all(&mut self)
        ensures { self.new ≡ all_woken (λ page. true) self.old }
    {
        self.wake(Sleepers::OnAnyPage);
    }

    /// Takes over the processors of another host: processor `k` must try `commands[k]` again, or is idle if that is `None`.
    /// The slice has one entry for each processor.
    pub fn take_over(&mut self, commands: &[Option<Command>])
        requires { length commands.now ≡ length self.old }
        ensures { self.new ≡ map taken_over commands.now }
    {
        for (k, command) in commands.iter().enumerate() {
            self.put(k, state_taken_over(*command));
        }
    }

    ghost use Rattle.vcpu.specs.Sleepers.{are_woken};

    /// Wakes the processors that are in `sleepers`.
    fn wake(&mut self, sleepers: Sleepers)
        ensures { self.new ≡ all_woken (are_woken sleepers) self.old }
    {
        sleepers.wake(&mut self.states);
    }

    /// Sets the state of processor `k`.
    fn put(&mut self, k: usize, state: CpuState)
        requires cpu { k < length self.old }
        requires message { HasMessage state }
        ensures { self.new ≡ set self.old k state }
    {
        self.states[k] = state;
    }
}

/// The command that a processor still has to make.
fn command_of(state: CpuState) -> Option<Command>
    ensures { result ≡ outstanding state }
{
    match state {
        CpuState::Asleep(command) | CpuState::Woken(command) => Some(command),
        CpuState::Idle | CpuState::InCall { .. } => None,
    }
}

/// The state of a processor that takes over `command`: woken, to try it again, or idle if there is none.
fn state_taken_over(command: Option<Command>) -> CpuState
    ensures { result ≡ taken_over command }
{
    command.map_or(CpuState::Idle, CpuState::Woken)
}
