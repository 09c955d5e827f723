//! The issues of a journal so far.

ghost use Rattle.std.specs.Prelude.{◌≡◌, ◌+◌, ◌<◌, ◌^◌, ◌==◌, ◌∷◌, ℕ, List, [], OnOk, if◌then◌else◌, Some};
ghost use Rattle.sc_isa.specs.declared.journal.Entry.{Entry as EntryOf};
ghost use Rattle.journal_effects.specs.Issues.{same_issue, issue_in, access_in, requests_in, AreIssuesOf, FewRequests, HaveNumberedCells};
ghost use Rattle.journal_effects.specs.Numbered.{IsNumbered};

use sc_base::OutOfMemory;
use sc_isa::{Access, Entry};
use std::alloc::Global;
use std::collections::HashMap;

/// An access that a node issued, and its number among the node's requests.
#[derive(Clone, Copy, Debug)]
pub struct Issue {
    pub access: Access,
    pub request: u64,
}

/// The issues, by node and number, and how many requests each node has made.
#[derive(Drop)]
pub struct Issues {
    issues: HashMap<(u32, u64), Issue>,
    requests: HashMap<u32, u64>,
}

impl Issues {
    /// Those of no entries.
    pub fn new(alloc: Global) -> Issues
        ensures { AreIssuesOf result [] }
    {
        Issues {
            issues: HashMap::new(alloc),
            requests: HashMap::new(alloc),
        }
    }

    /// The node's issue with this number.
    pub fn get(&self, node: u32, number: u64) -> Option<Issue>
        ensures { result ≡ issue_in self.now.issues node number }
    {
        self.issues.get(&(node, number)).copied()
    }

    /// Its access.
    pub fn access(&self, node: u32, number: u64) -> Option<Access>
        ensures { result ≡ access_in self.now node number }
    {
        match self.get(node, number) {
            Some(issue) => Some(issue.access),
            None => None,
        }
    }

    /// Those of the entries so far and of this one.
    pub fn note(&mut self, entry: Entry) -> Result<(), OutOfMemory>
        requires { FewRequests self.old }
        ensures issues { OnOk result ((past : List EntryOf) → AreIssuesOf self.old past → AreIssuesOf self.new (entry ∷ past)) }
        ensures numbered { OnOk result (HaveNumberedCells self.old → IsNumbered entry → HaveNumberedCells self.new) }
    {
        match entry {
            Entry::Issued {
                node,
                number,
                access,
            } => {
                let request = requests_of(&self.requests, node);
                note_issue(&mut self.issues, node, number, Issue { access, request })?;
                note_request(&mut self.requests, node)?;
                Ok(())
            }
            Entry::Waited { node, counter } => {
                if counter == 0 {
                    note_request(&mut self.requests, node)?;
                    Ok(())
                } else {
                    Ok(())
                }
            }
            Entry::Arrived { node, .. } => {
                note_request(&mut self.requests, node)?;
                Ok(())
            }
            _ => Ok(()),
        }
    }
}

/// How many requests the node has made.
fn requests_of(requests: &HashMap<u32, u64>, node: u32) -> u64
    ensures { result ≡ requests_in requests.now node }
{
    requests.get(&node).copied().unwrap_or(0)
}

fn note_issue(
    issues: &mut HashMap<(u32, u64), Issue>,
    node: u32,
    number: u64,
    issue: Issue,
) -> Result<(), OutOfMemory>
    ensures { OnOk result ((other n : ℕ) → issue_in issues.new other n ≡ (if same_issue (node, number) (other, n) then Some issue else issue_in issues.old other n)) }
{
    match issues.insert((node, number), issue) {
        Ok(_) => Ok(()),
        Err(_) => Err(OutOfMemory),
    }
}

/// The node has made one request more.
fn note_request(requests: &mut HashMap<u32, u64>, node: u32) -> Result<(), OutOfMemory>
    requires { requests_in requests.old node < 2 ^ 63 }
    ensures { OnOk result ((other : ℕ) → requests_in requests.new other ≡ (if node == other then requests_in requests.old node + 1 else requests_in requests.old other)) }
{
    let request = requests_of(requests, node);
    match requests.insert(node, request + 1) {
        Ok(_) => Ok(()),
        Err(_) => Err(OutOfMemory),
    }
}
