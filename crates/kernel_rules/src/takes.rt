//! A call of a log takes effect, by the rules of `specs/Runs.antt`. After `NoMemory`, or where no rule allows the answer, a table is not to
//! be used.

ghost use Rattle.std.specs.Prelude.{◌≡◌, ◌&&◌, false, Some, IfOk};
ghost use Rattle.kernel_rules.specs.Runs.{is_again, is_at_home, is_gone, object_of, on_object, on_space, outcome_of, protects_first, reader_of, refuses, starts, taken_by, takes, takes_next, unblocked};
ghost use Rattle.kernel_rules.specs.State.{allowed};
ghost use Rattle.kernel_rules.specs.Kinds.{only, is_filling, is_install, is_on_range};
ghost use Rattle.kernel_rules.specs.Held.{kernel_of, AreTables};

use crate::answers::{duplicates, is_unblock_error};
use crate::arguments::asked_for;
use crate::filling::{continuing, poisoning, putting};
use crate::kernel_table::KernelTable;
use crate::moves::moved_range;
use crate::object::Object;
use crate::reads::{Reading, may_return};
use crate::run::{Ending, Made};
use foundation::NoMemory;
use uffd_log::{Answer, Call, Errno};

/// The object on which a call is made, if it is on one.
fn object_of(call: Call) -> Option<u64>
    ensures { result ≡ object_of call }
{
    match call {
        Call::Api { on, .. }
        | Call::Register { on, .. }
        | Call::Unregister { on, .. }
        | Call::Wake { on, .. }
        | Call::Copy { on, .. }
        | Call::Move { on, .. }
        | Call::ZeroPage { on, .. }
        | Call::Continue { on, .. }
        | Call::Poison { on, .. }
        | Call::WriteProtect { on, .. }
        | Call::Read { on, .. }
        | Call::Poll { on }
        | Call::NonBlock { on, .. }
        | Call::Dup { on, .. }
        | Call::Close { on }
        | Call::Scan { on, .. } => Some(on.object),
        Call::Open { .. }
        | Call::Mmap { .. }
        | Call::Munmap { .. }
        | Call::Mremap { .. }
        | Call::Madvise { .. }
        | Call::Fork => None,
    }
}

/// Whether a call puts or protects pages.
fn is_install(call: Call) -> bool
    ensures { result ≡ is_install call }
{
    matches!(
        call,
        Call::Copy { .. } | Call::ZeroPage { .. } | Call::WriteProtect { .. }
    )
}

/// Whether a call fills pages in another way.
fn is_filling(call: Call) -> bool
    ensures { result ≡ is_filling call }
{
    matches!(
        call,
        Call::Continue { .. } | Call::Poison { .. } | Call::Move { .. }
    )
}

/// Whether a call is another one on a range of an object.
fn is_on_range(call: Call) -> bool
    ensures { result ≡ is_on_range call }
{
    matches!(
        call,
        Call::Register { .. } | Call::Unregister { .. } | Call::Wake { .. } | Call::Scan { .. }
    )
}

/// Whether a call is made by the program that opened the object.
fn is_at_home(made: Made, object: Object) -> bool
    ensures { result ≡ is_at_home made object }
{
    0 < made.program && u64::from(made.program) == object.program
}

/// Whether an answer says that the memory of the object is gone.
fn is_gone(answer: Answer) -> bool
    ensures { result ≡ is_gone answer }
{
    match answer {
        Answer::Failed { errno, .. } => matches!(errno, Errno::Esrch),
        _ => false,
    }
}

/// Whether an answer is EAGAIN.
fn is_again(answer: Answer) -> bool
    ensures { result ≡ is_again answer }
{
    match answer {
        Answer::Failed { errno, .. } => matches!(errno, Errno::Eagain),
        _ => false,
    }
}

/// The thread that makes a call, where page faults of the object name threads by the same numbers.
fn reader_of(made: Made, object: Object) -> Option<u64>
    ensures { result ≡ reader_of made object }
{
    if is_at_home(made, object) && asked_for(object, 8) {
        Some(u64::from(made.thread))
    } else {
        None
    }
}

/// A read of an object, by its call.
fn reading_by(made: Made, name: u64, object: Object) -> Reading
    ensures { result ≡ record {
      key = made.key;
      reader = reader_of made object;
      name = name;
      object = object;
    } }
{
    Reading {
        key: u64::from(made.key),
        reader: reader_of(made, object),
        name,
        object,
    }
}

impl KernelTable {
    /// O_NONBLOCK is set or cleared.
    fn unblocks(
        &mut self,
        name: u64,
        object: Object,
        set: bool,
        answer: Answer,
    ) -> Result<bool, NoMemory>
        requires { AreTables self.old }
        ensures tables { AreTables self.new }
        ensures step { IfOk result (λ made.
            unblocked (kernel_of self.old) name object set answer ≡
            allowed made (kernel_of self.new)) }
    {
        match answer {
            Answer::Done => {
                self.set_object(
                    name,
                    Object {
                        waits: !set,
                        ..object
                    },
                )?;
                Ok(true)
            }
            Answer::Failed { errno, .. } => Ok(is_unblock_error(errno)),
            _ => Ok(false),
        }
    }

    /// A call that puts or protects pages. Others are refused.
    #[tactic(auto, unfolding(crate::specs::Runs::on_object))]
    fn take_install(
        &mut self,
        name: u64,
        object: Object,
        made: Made,
        ending: &Ending,
    ) -> Result<bool, NoMemory>
        requires { AreTables self.old }
        ensures tables { AreTables self.new }
        ensures step { IfOk result (λ ok. only (is_install made.call)
            (on_object (kernel_of self.old) made name object (outcome_of ending.now) made.call) ≡
            allowed ok (kernel_of self.new)) }
    {
        let (key, answer) = (u64::from(made.key), ending.answer);
        match made.call {
            Call::Copy {
                to,
                from,
                len,
                mode,
                ..
            } => self.copies(key, name, object, to, from, len, mode, answer),
            Call::ZeroPage {
                start,
                len,
                mode,
                ..
            } => self.puts(key, name, object, start, len, putting(mode, 1), answer),
            Call::WriteProtect {
                start,
                len,
                mode,
                ..
            } => self.protects(key, name, object, start, len, mode, answer),
            _ => Ok(false),
        }
    }

    /// A call that fills pages in another way. Others are refused.
    #[tactic(auto, unfolding(crate::specs::Runs::on_object))]
    fn take_filling(
        &mut self,
        name: u64,
        object: Object,
        made: Made,
        ending: &Ending,
    ) -> Result<bool, NoMemory>
        requires { AreTables self.old }
        ensures tables { AreTables self.new }
        ensures step { IfOk result (λ ok. only (is_filling made.call)
            (on_object (kernel_of self.old) made name object (outcome_of ending.now) made.call) ≡
            allowed ok (kernel_of self.new)) }
    {
        let (key, answer) = (u64::from(made.key), ending.answer);
        match made.call {
            Call::Continue {
                start,
                len,
                mode,
                ..
            } => {
                if self.may_be_unshared(object, start, len, answer) {
                    return Ok(true);
                }
                self.puts(key, name, object, start, len, continuing(mode), answer)
            }
            Call::Poison {
                start,
                len,
                mode,
                ..
            } => self.puts(key, name, object, start, len, poisoning(mode), answer),
            Call::Move {
                to,
                from,
                len,
                mode,
                ..
            } => self.move_with(key, name, object, moved_range(to, from, len, mode), answer),
            _ => Ok(false),
        }
    }

    /// Another call on a range of an object. Others are refused.
    #[tactic(auto, unfolding(crate::specs::Runs::on_object))]
    fn take_range(
        &mut self,
        name: u64,
        object: Object,
        made: Made,
        ending: &Ending,
    ) -> Result<bool, NoMemory>
        requires { AreTables self.old }
        ensures tables { AreTables self.new }
        ensures step { IfOk result (λ ok. only (is_on_range made.call)
            (on_object (kernel_of self.old) made name object (outcome_of ending.now) made.call) ≡
            allowed ok (kernel_of self.new)) }
    {
        let answer = ending.answer;
        match made.call {
            Call::Register {
                start,
                len,
                mode,
                ..
            } => self.register(name, object, start, len, mode, answer),
            Call::Unregister { start, len, .. } => {
                self.unregister(name, object, start, len, answer)
            }
            Call::Wake { start, len, .. } => self.wakes(name, object, start, len, answer),
            Call::Scan { start, len, .. } => {
                self.scans(object, start, len, &ending.runs, answer)
            }
            _ => Ok(false),
        }
    }

    /// A call on an object, of none of these.
    #[tactic(auto, unfolding(crate::specs::Runs::on_object))]
    fn take_other(
        &mut self,
        name: u64,
        object: Object,
        made: Made,
        ending: &Ending,
    ) -> Result<bool, NoMemory>
        requires tables { AreTables self.old }
        requires install { is_install made.call ≡ false }
        requires filling { is_filling made.call ≡ false }
        requires range { is_on_range made.call ≡ false }
        ensures tables { AreTables self.new }
        ensures step { IfOk result (λ ok.
            on_object (kernel_of self.old) made name object (outcome_of ending.now) made.call ≡
            allowed ok (kernel_of self.new)) }
    {
        let answer = ending.answer;
        match made.call {
            Call::Api { api, features, .. } => self.api(name, object, api, features, answer),
            Call::Read { room, .. } => {
                let by = reading_by(made, name, object);
                self.reads(by, room, &ending.messages, answer)
            }
            Call::Poll { .. } => Ok(self.polls(name, object, answer)),
            Call::NonBlock { set, .. } => self.unblocks(name, object, set, answer),
            Call::Dup { .. } => Ok(duplicates(answer)),
            Call::Close { .. } => self.closes(name, object, made.last, answer),
            _ => Ok(false),
        }
    }

    /// A call on an object takes effect.
    fn take_on_object(&mut self, name: u64, made: Made, ending: &Ending) -> Result<bool, NoMemory>
        requires { AreTables self.old }
        ensures tables { AreTables self.new }
        ensures step { IfOk result (λ ok.
            taken_by (kernel_of self.old) made (outcome_of ending.now) (Some name) ≡
            allowed ok (kernel_of self.new)) }
    {
        let Some(object) = self.object(name) else {
            return Ok(false);
        };
        if is_at_home(made, object) && is_gone(ending.answer) {
            return Ok(false);
        }
        if is_install(made.call) {
            return self.take_install(name, object, made, ending);
        }
        if is_filling(made.call) {
            return self.take_filling(name, object, made, ending);
        }
        if is_on_range(made.call) {
            return self.take_range(name, object, made, ending);
        }
        self.take_other(name, object, made, ending)
    }

    /// A call of an address space takes effect.
    #[tactic(auto, unfolding(crate::specs::Runs::on_space))]
    fn take_on_space(&mut self, made: Made, ending: &Ending) -> Result<bool, NoMemory>
        requires tables { AreTables self.old }
        ensures tables { AreTables self.new }
        ensures step { IfOk result (λ ok.
            on_space (kernel_of self.old) made (outcome_of ending.now) made.call ≡
            allowed ok (kernel_of self.new)) }
    {
        let (key, space) = (u64::from(made.key), u64::from(made.space));
        let answer = ending.answer;
        match made.call {
            Call::Open { flags, .. } => self.open(space, u64::from(made.program), flags, answer),
            Call::Mmap {
                addr,
                len,
                flags,
                ..
            } => self.mmaps(key, space, addr, len, flags, answer),
            Call::Munmap { addr, len } => self.munmaps(key, space, addr, len, answer),
            Call::Mremap {
                addr,
                old_len,
                new_len,
                flags,
                ..
            } => self.mremaps(key, space, addr, old_len, new_len, flags, answer),
            Call::Madvise { addr, len, advice } => {
                self.madvises(key, space, addr, len, advice, answer)
            }
            Call::Fork => self.forks(key, space, answer),
            _ => Ok(false),
        }
    }

    /// A call of a log takes effect. False where no rule allows its answer.
    pub fn takes(&mut self, made: Made, ending: &Ending) -> Result<bool, NoMemory>
        requires { AreTables self.old }
        ensures tables { AreTables self.new }
        ensures step { IfOk result (λ ok.
            takes (kernel_of self.old) made (outcome_of ending.now) ≡
            allowed ok (kernel_of self.new)) }
    {
        match object_of(made.call) {
            Some(name) => self.take_on_object(name, made, ending),
            None => self.take_on_space(made, ending),
        }
    }

    /// A call that fills pages is refused since the address space is changing, whatever its result field has. False where no rule allows that,
    /// and nothing has changed then.
    pub fn refuses(&mut self, made: Made, ending: &Ending) -> Result<bool, NoMemory>
        requires { AreTables self.old }
        ensures tables { AreTables self.new }
        ensures step { IfOk result (λ ok.
            refuses (kernel_of self.old) made (outcome_of ending.now) ≡
            allowed ok (kernel_of self.new)) }
    {
        let fills = matches!(made.call, Call::Copy { .. } | Call::ZeroPage { .. });
        if !is_again(ending.answer) || !fills && !is_filling(made.call) {
            return Ok(false);
        }
        match object_of(made.call) {
            Some(name) => self.refuse_while_changing(name),
            None => Ok(false),
        }
    }

    /// Whether a call is a read that may begin to take these messages, one after another.
    pub fn may_start(&self, made: Made, ending: &Ending) -> bool
        requires { AreTables self.now }
        ensures { starts (kernel_of self.now) made (outcome_of ending.now) ≡
            allowed result (kernel_of self.now) }
    {
        let Call::Read { on, room } = made.call else {
            return false;
        };
        match self.object(on.object) {
            Some(object) => may_return(object, room, &ending.messages, ending.answer),
            None => false,
        }
    }

    /// A read takes the first of the last `left` messages of an ending. False where no rule allows that.
    pub fn takes_next(&mut self, made: Made, left: usize, ending: &Ending) -> Result<bool, NoMemory>
        requires { AreTables self.old }
        ensures tables { AreTables self.new }
        ensures step { IfOk result (λ ok.
            takes_next (kernel_of self.old) made left (outcome_of ending.now) ≡
            allowed ok (kernel_of self.new)) }
    {
        let Call::Read { on, .. } = made.call else {
            return Ok(false);
        };
        let Some(object) = self.object(on.object) else {
            return Ok(false);
        };
        let by = reading_by(made, on.object, object);
        self.read_one(by, &ending.messages, left)
    }

    /// A UFFDIO_WRITEPROTECT that is under way protects a page of its range; `over` says whether it has taken effect. False where no rule allows
    /// that, and nothing has changed then.
    pub fn protects_page(&mut self, made: Made, over: bool, page: u64) -> Result<bool, NoMemory>
        requires { AreTables self.old }
        ensures tables { AreTables self.new }
        ensures step { IfOk result (λ ok.
            protects_first (kernel_of self.old) made over page ≡
            allowed ok (kernel_of self.new)) }
    {
        let Call::WriteProtect {
            on,
            start,
            len,
            mode,
        } = made.call
        else {
            return Ok(false);
        };
        let Some(object) = self.object(on.object) else {
            return Ok(false);
        };
        if over {
            return Ok(false);
        }
        let key = u64::from(made.key);
        self.protects_first(key, on.object, object, start, len, mode, page)
    }
}
