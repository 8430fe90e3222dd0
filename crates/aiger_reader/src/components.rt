//! A guess at which gates need one another. Nothing is promised of it: it only tells where to look.
use crate::needs::GateNeeds;
use std::alloc::{AllocError, Global};

/// A gate on the way, and how many of its needs were looked at.
#[derive(Clone, Copy)]
struct Visit {
    gate: u32,
    looked_at: u32,
}

/// A search in depth (R. Tarjan, Depth-first search and linear graph algorithms, 1972).
#[derive(Drop)]
struct Search {
    /// When each gate was met, from 1; 0 before.
    met: Vec<u32>,
    /// The earliest gate that is known to be needed by each one, and to be still open.
    lowest: Vec<u32>,
    /// The component of each gate, from 1; 0 before.
    ranks: Vec<u32>,
    path: Vec<Visit>,
    open: Vec<u32>,
    met_count: u32,
    rank_count: u32,
}

/// A rank for each gate: none is below that of a gate that it needs, and gates that need one another have the same.
pub(crate) fn component_ranks(alloc: Global, needs: &[GateNeeds]) -> Result<Vec<u32>, AllocError> {
    let count = needs.len();
    let mut search = Search {
        met: vec![in alloc; 0; count]?,
        lowest: vec![in alloc; 0; count]?,
        ranks: vec![in alloc; 0; count]?,
        path: Vec::new(alloc),
        open: Vec::new(alloc),
        met_count: 0,
        rank_count: 0,
    };
    for gate in 0..count {
        search.visit_from(needs, u32::try_from(gate).unwrap_or(u32::MAX))?;
    }
    Ok(search.ranks)
}

fn read(table: &[u32], gate: u32) -> u32 {
    table.get(gate as usize).copied().unwrap_or(0)
}

fn write(table: &mut [u32], gate: u32, value: u32) {
    if let Some(entry) = table.get_mut(gate as usize) {
        *entry = value;
    }
}

impl Search {
    /// Visits all that the gate needs and that was not met.
    fn visit_from(&mut self, needs: &[GateNeeds], gate: u32) -> Result<(), AllocError> {
        self.meet(needs.len(), gate)?;
        for _ in 0..u64::MAX {
            let Some(visit) = self.path.pop() else {
                break;
            };
            self.go_on(needs, visit)?;
        }
        Ok(())
    }

    /// Goes to a gate that is there and was not met.
    fn meet(&mut self, count: usize, gate: u32) -> Result<(), AllocError> {
        if (gate as usize) < count && read(&self.met, gate) == 0 {
            self.met_count = self.met_count.saturating_add(1);
            write(&mut self.met, gate, self.met_count);
            write(&mut self.lowest, gate, self.met_count);
            self.open.push(gate)?;
            self.path.push(Visit { gate, looked_at: 0 })?;
        }
        Ok(())
    }

    /// Looks at the next need of a gate, or leaves the gate.
    fn go_on(&mut self, needs: &[GateNeeds], visit: Visit) -> Result<(), AllocError> {
        let Some(gate) = needs.get(visit.gate as usize) else {
            return Ok(());
        };
        match visit.looked_at {
            0 => self.look_at(needs.len(), visit, gate.left),
            1 => self.look_at(needs.len(), visit, gate.right),
            _ => {
                self.leave(visit.gate);
                Ok(())
            }
        }
    }

    /// Looks at a need: goes to it, or notes how early it was met.
    fn look_at(&mut self, count: usize, visit: Visit, need: u32) -> Result<(), AllocError> {
        self.path.push(Visit {
            gate: visit.gate,
            looked_at: visit.looked_at.saturating_add(1),
        })?;
        let met = read(&self.met, need);
        if met == 0 {
            return self.meet(count, need);
        }
        let rank = read(&self.ranks, need);
        if rank == 0 {
            self.note(visit.gate, met);
        }
        Ok(())
    }

    /// Notes how early a gate was met that a gate needs.
    fn note(&mut self, gate: u32, met: u32) {
        let lowest = read(&self.lowest, gate);
        if met < lowest {
            write(&mut self.lowest, gate, met);
        }
    }

    /// Leaves a gate whose needs were all looked at.
    fn leave(&mut self, gate: u32) {
        let lowest = read(&self.lowest, gate);
        if let Some(before) = self.path.last().copied() {
            self.note(before.gate, lowest);
        }
        let met = read(&self.met, gate);
        if lowest == met {
            self.close(gate);
        }
    }

    /// Gives a rank to all that is open from a gate on.
    fn close(&mut self, gate: u32) {
        self.rank_count = self.rank_count.saturating_add(1);
        while let Some(last) = self.open.pop() {
            write(&mut self.ranks, last, self.rank_count);
            if last == gate {
                return;
            }
        }
    }
}
