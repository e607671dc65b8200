// The call graph: which routine leads to which by calls, its components, and their order.
ghost use Rattle.std.specs.Prelude.{◌≡◌, ◌≤◌, ltb, length};
ghost use Rattle.program.specs.Sizes.{max_routines};
ghost use Rattle.program.specs.WellFormed.{WellFormed};
ghost use Rattle.program.specs.Decoded.{edge_of, program_of};
ghost use Rattle.base.specs.Flags.{count_set};
ghost use Rattle.base.specs.Filled.{Filled};
ghost use Rattle.callgraph.specs.Components.{Leads};
ghost use Rattle.callgraph.specs.Parts.{in_turn, lead_place, LeadFlags, copy_lead, leads_by_edge, leads_by_edges};
ghost use Rattle.callgraph.specs.Parts.{together_flag, rank_flag, rank_of};

use crate::flags::copy_when;
use crate::routines::Routines;
use base::flags::{count_set, is_set, set_flag};
use program::DecodedProgram;
use program::edges::{called_by, edge, is_call};
use program::sizes::{MAX_EDGES, MAX_ROUTINES};
use tables::in_use;

// A flag for each routine and each that it may lead to.
pub const LEADS_SIZE: usize = MAX_ROUTINES * MAX_ROUTINES;

// The flag at the place of (f, g): f leads to g by one call or more.
#[derive(Clone, Copy)]
pub struct Graph {
    pub leads: [u8; LEADS_SIZE],
}

fn lead_place(f: u8, g: u8) -> usize
    ensures { result ≡ lead_place f g }
{
    f as usize * MAX_ROUTINES + g as usize
}

// What g leads to, f leads to.
fn copy_row(leads: &mut [u8], f: u8, g: u8)
    ensures { leads.new ≡ in_turn (copy_lead f g) max_routines 0 leads.old }
{
    for h in 0..MAX_ROUTINES as u8 {
        copy_when(true, leads, lead_place(g, h), lead_place(f, h));
    }
}

// What an edge adds: its routine leads to the one that it calls, and on.
fn lead_by_edge(leads: &mut [u8], key: u32)
    ensures { leads.new ≡ leads_by_edge (edge_of key) leads.old }
{
    let e = edge(key);
    if is_call(e.label) {
        let g = called_by(e.label);
        set_flag(leads, lead_place(e.routine, g));
        copy_row(leads, e.routine, g);
    }
}

fn lead_by_edges(keys: &[u32], leads: &mut [u8])
    ensures { leads.new ≡ leads_by_edges keys.now (length keys.now) leads.old }
{
    for key in keys {
        lead_by_edge(leads, *key);
    }
}

// One pass over the edges; whether it has set a flag more.
fn lead_further(keys: &[u32], leads: &mut [u8]) -> bool
    ensures { (leads.new ≡ leads_by_edges keys.now (length keys.now) leads.old)
        × (result ≡ ltb (count_set leads.old) (count_set leads.new)) }
{
    let before = count_set(leads);
    lead_by_edges(keys, leads);
    let after = count_set(leads);
    before < after
}

// Passes over the edges until nothing more is set. The reader accepts only well-formed programs: hence the `requires`.
pub fn call_graph(p: DecodedProgram) -> Graph
    requires { WellFormed (program_of p) }
    ensures { LeadFlags (Leads (program_of p)) result.leads }
{
    let edges = p.edges;
    let keys = &edges.keys[..in_use(edges.count, MAX_EDGES)];
    let mut leads = [0u8; LEADS_SIZE];
    let mut more = true;
    while more {
        more = lead_further(keys, &mut leads);
    }
    Graph { leads }
}

fn is_together(leads: &[u8], f: u8, g: u8) -> u8
    ensures { result ≡ together_flag leads.now f g }
{
    let together = f == g || (is_set(leads, lead_place(f, g)) && is_set(leads, lead_place(g, f)));
    u8::from(together)
}

// The routines in one component with f.
pub fn component(leads: &[u8], f: u8) -> Routines
    ensures { Filled (together_flag leads.now f) max_routines result.flags }
{
    let mut flags = [0u8; MAX_ROUTINES];
    for g in 0..MAX_ROUTINES as u8 {
        flags[g as usize] = is_together(leads, f, g);
    }
    Routines { flags }
}

fn is_counted(leads: &[u8], f: u8, g: u8) -> usize
    ensures { (result ≡ rank_flag leads.now f g) × (result ≤ 1) }
{
    let counted = g == f || is_set(leads, lead_place(f, g));
    usize::from(counted)
}

// How many routines f leads to, itself among them: fewer than any routine that calls it from outside its component.
pub fn rank(leads: &[u8], f: u8) -> usize
    ensures { result ≡ rank_of leads.now f }
{
    let mut n: usize = 0;
    for g in 0..MAX_ROUTINES as u8 {
        n += is_counted(leads, f, g);
    }
    n
}
