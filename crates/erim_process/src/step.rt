//! One step of a thread.

ghost use Rattle.std.specs.Prelude.{◌≡◌, ◌≢◌, ◌<◌, ◌+◌, ◌/◌, ◌^◌, ℕ, length, None, Some};
ghost use Rattle.erim_defs.specs.declared.machine.Access.TheVariants as Access;
ghost use Rattle.erim_defs.specs.declared.machine.End.TheVariants.{Fault};
ghost use Rattle.erim_defs.specs.declared.insn.FetchOutcome.TheVariants.{Runs};
ghost use Rattle.erim_defs.specs.Machine.Access.{whole};
ghost use Rattle.erim_defs.specs.Machine.Plan.{effect};
ghost use Rattle.erim_defs.specs.Machine.Meaning.{plan};
ghost use Rattle.erim_defs.specs.Inspection.Image.{image_heaps, image_trust};
ghost use Rattle.erim_defs.specs.declared.machine.Rights.{Rights};
ghost use Rattle.erim_defs.specs.declared.machine.Thread.{Thread};
ghost use Rattle.erim_defs.specs.Inspection.Unsafe.{first_unsafe};
ghost use Rattle.erim_defs.specs.Machine.Isolation.{IsSafeCode};
ghost use Rattle.erim_defs.specs.Machine.Pages.{code_with, published_code};
ghost use Rattle.erim_defs.specs.Machine.State.{Setup, code, trust_of};
ghost use Rattle.erim_defs.specs.Machine.Step.{step, after_fetch, after_instruction};
ghost use Rattle.erim_defs.specs.Machine.Step.{after_exec_fault, after_stop, after_take_back};
ghost use Rattle.erim_defs.specs.Machine.Step.{after_verdict, after_write_fault, fetch};
ghost use Rattle.erim_defs.specs.Machine.Access.{rights_in};
ghost use Rattle.erim_process.specs.Machine.{Becomes, IsBounded, KeepsLimits, machine_state};
ghost use Rattle.erim_defs.specs.Machine.StepAnswers.{step_answer};

use crate::calls::after_syscall;
use crate::fetch::fetch;
use crate::machine::Machine;
use erim_defs::page::USER_END_PAGE;
use erim_defs::{Cause, End, FetchOutcome, Insn, Stepped, Thread, Trust};
use exec_fault::{Verdict, publish, take_back, verdict};
use map_calls::is_pinned;
use page_store::{Memory, Pages};
use x86_step::{Exec, exec};

impl<P: Pages> Machine<P> {
    /// A fault ends the process.
    fn fail(&mut self, t: u8, rip: u64, cause: Cause, addr: u64)
        ensures end { self.new ≡ record self.old { end = Some (Fault t rip cause addr) } }
    {
        self.end = Some(End::Fault {
            thread: t,
            rip,
            cause,
            addr,
        });
    }

    /// The thread wants to execute at an address that isn't published.
    fn exec_fault(&mut self, trust: &Trust, t: u8, thread: &Thread, addr: u64)
        requires safe { IsSafeCode trust.now
            (published_code (rights_in (P.seen self.old.pages)) (P.bytes self.old.pages)) }
        ensures state { Becomes P.Memory trust.now self.old self.new
            (λ s. after_exec_fault (s.rights (addr / 4096)) addr
            (record { number = t; thread = thread.now }) s) }
        ensures kept { KeepsLimits P.Memory self.old self.new }
    {
        let page = addr / 4096;
        match self.pages.rights(page) {
            Some(rights) if rights.asks_exec() && page < USER_END_PAGE => {
                self.judge(trust, t, page);
            }
            _ => self.fail(t, thread.rip, Cause::Exec, addr),
        }
    }

    /// Publishes the page, or ends the process for what is unsafe with it.
    fn judge(&mut self, trust: &Trust, t: u8, page: u64)
        requires low { page < 2 ^ 35 }
        requires safe { IsSafeCode trust.now
            (published_code (rights_in (P.seen self.old.pages)) (P.bytes self.old.pages)) }
        ensures state { (thread : Thread) (rights : Rights)
            → rights_in (P.seen self.old.pages) page ≡ Some rights
            → Becomes P.Memory trust.now self.old self.new (λ s. after_verdict
            (first_unsafe (trust_of s) (code_with s.rights s.bytes page)) page rights
            (record { number = t; thread = thread }) s) }
        ensures kept { KeepsLimits P.Memory self.old self.new }
    {
        match verdict(&self.pages, page, trust) {
            Verdict::Publish => publish(&mut self.pages, page),
            Verdict::Refuse { found } => {
                self.end = Some(End::Refused {
                    page,
                    found,
                    thread: t,
                });
            }
        }
    }

    /// Takes the publication of a page back, unless the origin of a thread pins it.
    fn take_back(&mut self, page: u64)
        requires low { page < 2 ^ 35 }
        ensures state { (setup : Setup) (rights : Rights)
            → rights_in (P.seen self.old.pages) page ≡ Some rights
            → machine_state P.Memory setup self.new
            ≡ after_take_back page rights (machine_state P.Memory setup self.old) }
        ensures kept { KeepsLimits P.Memory self.old self.new }
    {
        if !is_pinned(self.threads.list(), page) {
            take_back(&mut self.pages, page);
        }
    }

    /// The thread wants to write to a page that isn't writable. Where that is for its publication
    /// alone, the page takes it back; else the process ends. The thread doesn't move.
    fn write_fault(&mut self, t: u8, thread: &Thread, addr: u64)
        ensures state { (setup : Setup) → machine_state P.Memory setup self.new
            ≡ after_write_fault (rights_in (P.seen self.old.pages) (addr / 4096)) addr
            (record { number = t; thread = thread.now }) (machine_state P.Memory setup self.old) }
        ensures kept { KeepsLimits P.Memory self.old self.new }
    {
        let page = addr / 4096;
        match self.pages.rights(page) {
            Some(rights) if rights.is_write_fault(thread.pkru) => self.take_back(page),
            _ => self.fail(t, thread.rip, Cause::Write, addr),
        }
    }

    /// An access stops with this cause.
    fn stop(&mut self, t: u8, thread: &Thread, cause: Cause, addr: u64)
        ensures state { (setup : Setup) → machine_state P.Memory setup self.new
            ≡ after_stop (Access.Fault cause addr) (record { number = t; thread = thread.now })
            (machine_state P.Memory setup self.old) }
        ensures kept { KeepsLimits P.Memory self.old self.new }
    {
        match cause {
            Cause::Write => self.write_fault(t, thread, addr),
            _ => self.fail(t, thread.rip, cause, addr),
        }
    }

    /// What an instruction makes of the thread.
    fn execute_insn(
        &mut self,
        trust: &Trust,
        t: u8,
        thread: &Thread,
        insn: &Insn,
        len: u8,
        skip: u8,
    )
        requires placed { IsBounded (Runs insn.now len skip) thread.now.rip }
        requires there { t < length self.old.threads }
        ensures state { Becomes P.Memory trust.now self.old self.new
            (λ s. after_instruction (effect (plan insn.now len thread.now) (whole s.rights) s.bytes
            thread.now.pkru thread.now.rip)
            (record { insn = insn.now; len = len; skip = skip })
            (record { number = t; thread = thread.now }) s) }
        ensures kept { KeepsLimits P.Memory self.old self.new }
    {
        let mut new = *thread;
        match exec(insn, len, skip, trust, &mut new, &mut self.pages) {
            Exec::Done { escaped } => self.settle(t, &new, escaped),
            Exec::Syscall => self.call(trust, t, thread, &after_syscall(thread, len)),
            Exec::Fault { cause, addr } => self.stop(t, thread, cause, addr),
            // The pages hold every page.
            Exec::Missing { .. } => {}
        }
    }

    /// What the thread makes of what stands at its RIP.
    fn fetch_and_execute(&mut self, trust: &Trust, t: u8, thread: &Thread)
        requires there { t < length self.old.threads }
        requires safe { IsSafeCode trust.now
            (published_code (rights_in (P.seen self.old.pages)) (P.bytes self.old.pages)) }
        ensures state { Becomes P.Memory trust.now self.old self.new
            (λ s. after_fetch (fetch (code s) thread.now.rip)
            (record { number = t; thread = thread.now }) s) }
        ensures kept { KeepsLimits P.Memory self.old self.new }
    {
        match fetch(&mut self.pages, thread.rip) {
            FetchOutcome::Runs { insn, len, skip } => self.execute_insn(
                trust, t, thread, &insn, len, skip,
            ),
            FetchOutcome::Need { addr } => self.exec_fault(trust, t, thread, addr),
            FetchOutcome::Wrong => self.fail(t, thread.rip, Cause::Undefined, thread.rip),
        }
    }

    /// Makes one step of a thread, where it is defined.
    #[tactic(auto, unfolding(erim_defs::specs::Machine::Step::step))]
    pub(crate) fn step(&mut self, trust: &Trust, budget: u32, t: u8) -> Stepped
        requires safe { IsSafeCode trust.now
            (published_code (rights_in (P.seen self.old.pages)) (P.bytes self.old.pages)) }
        ensures answer { (setup : Setup) → setup.budget ≡ budget
            → result ≡ step_answer (machine_state P.Memory setup self.old) t }
        ensures made { (setup : Setup) → setup.budget ≡ budget → image_trust setup.image ≡ trust.now
            → setup.frames ≡ P.frames self.old.pages
            → image_heaps setup.image ≡ self.old.heap.heaps → result ≡ Stepped.Made
            → step t (machine_state P.Memory setup self.old)
            ≡ Some (machine_state P.Memory setup self.new) }
        ensures there { result ≡ Stepped.Made → t < 16 }
        ensures steps { result ≡ Stepped.Made
            → (self.old.steps < budget) × (self.new.steps ≡ self.old.steps + 1) }
        ensures other { result ≢ Stepped.Made → self.new ≡ self.old }
        ensures heaps { self.new.heap.heaps ≡ self.old.heap.heaps }
        ensures frames { P.frames self.new.pages ≡ P.frames self.old.pages }
    {
        if self.end.is_some() {
            return Stepped::Ended;
        }
        if self.steps >= budget {
            return Stepped::Spent;
        }
        let threads = self.threads.list();
        if t as usize >= threads.len() {
            return Stepped::NotLive;
        }
        let thread = threads[t as usize];
        if !thread.live {
            return Stepped::NotLive;
        }
        self.steps += 1;
        self.fetch_and_execute(trust, t, &thread);
        Stepped::Made
    }
}
