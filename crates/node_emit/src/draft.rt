//! Code while it is written.

ghost use Rattle.std.specs.Prelude.{◌≡◌, ◌+◌, ◌∷◌, [], IfOk, OnOk, length, map, drop};
ghost use Rattle.sc_isa.specs.declared.op.Op.TheVariants.{Jump};
ghost use Rattle.node_emit.specs.Drafts as drafts;
ghost use Rattle.node_emit.specs.Drafts.{put_instr, put, passed, waits_put, led, led_all, ended, turned};
ghost use Rattle.node_emit.specs.Runs.{outside};

use sc_isa::{Instr, Op};
use std::alloc::{AllocError, Global};
use std::marker::Model;

/// The instructions so far, the number of the next point, and how many sites come before it.
#[derive(Drop)]
pub struct Draft {
    instrs: Vec<Instr>,
    point: u32,
    sites: u32,
}

impl Model for Draft {
    ghost use Rattle.node_emit.specs.Drafts.{Written};

    ghost Value = { Written };

    ghost view = { λ d. record { instrs = d.instrs.items; point = d.point; sites = d.sites } };
}

/// The sum. One that 32 bits do not hold counts as want of memory.
pub fn added(a: u32, b: u32) -> Result<u32, AllocError>
    ensures { IfOk result (λ sum. sum ≡ a + b) }
{
    match a.checked_add(b) {
        Some(sum) => Ok(sum),
        None => Err(AllocError),
    }
}

/// The number in 32 bits. One that has more counts as want of memory.
pub fn narrowed(count: usize) -> Result<u32, AllocError>
    ensures { IfOk result (λ n. n ≡ count) }
{
    match u32::try_from(count) {
        Ok(n) => Ok(n),
        Err(_) => Err(AllocError),
    }
}

impl Draft {
    /// No instruction, before this point.
    pub fn new(alloc: Global, point: u32) -> Draft
        ensures { result ≡ record { instrs = []; point = point; sites = 0 } }
    {
        Draft {
            instrs: Vec::new(alloc),
            point,
            sites: 0,
        }
    }

    pub fn into_instrs(self) -> Vec<Instr>
        ensures { result.items ≡ self.instrs }
    {
        self.instrs
    }

    /// The number of the next point.
    pub fn point(&self) -> u32
        ensures { result ≡ self.now.point }
    {
        self.point
    }

    /// How many sites come before.
    pub fn sites(&self) -> u32
        ensures { result ≡ self.now.sites }
    {
        self.sites
    }

    /// The place of the next instruction.
    pub fn place(&self) -> usize
        ensures { result ≡ length self.now.instrs }
    {
        self.instrs.len()
    }

    /// The number of the next instruction.
    pub fn here(&self) -> Result<u32, AllocError>
        ensures { IfOk result (λ n. n ≡ length self.now.instrs) }
    {
        narrowed(self.instrs.len())
    }

    #[tactic(auto, using(std::proofs::lemmas::Grind::common_steps), unfolding(crate::specs::Drafts::put_instr, crate::specs::Drafts::grown))]
    pub fn put(&mut self, instr: Instr) -> Result<(), AllocError>
        ensures { OnOk result (self.new ≡ put_instr instr self.old) }
    {
        self.instrs.push(instr)?;
        Ok(())
    }

    /// An instruction that belongs to no point.
    pub fn outside(&mut self, op: Op) -> Result<(), AllocError>
        ensures { OnOk result (self.new ≡ put op self.old) }
    {
        self.put(Instr { op, line: 0 })?;
        Ok(())
    }

    /// The point is done with.
    #[tactic(auto, using(std::proofs::lemmas::Grind::common_steps), unfolding(crate::specs::Drafts::passed, crate::specs::Drafts::grown))]
    pub fn pass(&mut self) -> Result<(), AllocError>
        ensures { OnOk result (self.new ≡ passed self.old) }
    {
        let next = added(self.point, 1)?;
        self.point = next;
        Ok(())
    }

    /// So many sites more come before.
    #[tactic(auto, using(std::proofs::lemmas::Grind::common_steps), unfolding(crate::specs::Drafts::counted, crate::specs::Drafts::grown))]
    pub fn count(&mut self, more: u32) -> Result<(), AllocError>
        ensures { OnOk result (self.new ≡ drafts.counted more self.old) }
    {
        let sites = added(self.sites, more)?;
        self.sites = sites;
        Ok(())
    }

    /// The instruction at this place becomes another.
    #[tactic(auto, using(std::proofs::lemmas::Grind::common_steps, crate::proofs::Patches::patches), unfolding(crate::specs::Drafts::led))]
    pub fn set(&mut self, at: usize, instr: Instr)
        ensures { self.new ≡ led at instr self.old }
    {
        if at < self.instrs.len() {
            self.instrs[at] = instr;
        }
    }

    /// The jumps at these places lead to this instruction.
    #[tactic(auto, using(std::proofs::lemmas::Grind::common_steps, crate::proofs::Patches::leads))]
    pub fn lead_to(&mut self, jumps: &[usize], target: u32)
        ensures { self.new ≡ led_all jumps.now target self.old }
    {
        for at in jumps {
            self.set(
                *at,
                Instr {
                    op: Op::Jump(target),
                    line: 0,
                },
            );
        }
    }

    /// The jumps at these places lead to what comes next.
    #[tactic(auto, using(std::proofs::lemmas::Grind::common_steps), unfolding(crate::specs::Drafts::ended))]
    pub fn end(&mut self, jumps: &[usize]) -> Result<(), AllocError>
        ensures { OnOk result (self.new ≡ ended jumps.now self.old) }
    {
        let target = self.here()?;
        self.lead_to(jumps, target);
        Ok(())
    }

    /// The way past the other branch, which begins behind it and to which the test at the place leads. It answers the
    /// place of the jump, whose target is not known.
    #[tactic(auto, using(std::proofs::lemmas::Grind::common_steps, crate::proofs::Patches::turns), unfolding(crate::specs::Drafts::turned))]
    pub fn turn(&mut self, zero: usize) -> Result<usize, AllocError>
        ensures draft { OnOk result (self.new ≡ turned zero self.old) }
        ensures place { IfOk result (λ at. at ≡ length self.old.instrs) }
    {
        let jump = self.instrs.len();
        self.outside(Op::Jump(0))?;
        let target = self.here()?;
        self.set(
            zero,
            Instr {
                op: Op::Zero(target),
                line: 0,
            },
        );
        Ok(jump)
    }

    /// Waits for these sites.
    #[tactic(auto, using(std::proofs::lemmas::Grind::common_steps, crate::proofs::Patches::waiting))]
    pub fn wait(&mut self, sites: &[u32], line: u32) -> Result<(), AllocError>
        ensures { OnOk result (self.new ≡ waits_put line sites.now self.old) }
    {
        for site in sites {
            self.put(Instr {
                op: Op::Wait(*site),
                line,
            })?;
        }
        Ok(())
    }
}
