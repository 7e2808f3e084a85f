// The calls that a process makes.
ghost use Rattle.std.specs.Prelude.{◌≡◌};
ghost use Rattle.process.specs.Asks.{out_call, rdp_call, cas_call};

use tuple::{
    CAS, Call, DECISION_ENTRY, DECISION_TEMPLATE, OUT, PROPOSAL, PROPOSAL_TEMPLATE, RDP, Tuple,
    make,
};

// Its proposal.
pub(crate) fn out_call(process: u32, round: u64, code: u64) -> Call
    ensures { result ≡ out_call process round code }
{
    Call {
        process,
        code: OUT,
        template: Tuple::blank(),
        entry: make(PROPOSAL, round, u64::from(process), code, 0),
    }
}

// The reading of process q's proposal.
pub(crate) fn rdp_call(process: u32, round: u64, q: u64) -> Call
    ensures { result ≡ rdp_call process round q }
{
    Call {
        process,
        code: RDP,
        template: make(PROPOSAL_TEMPLATE, round, q, 0, 0),
        entry: Tuple::blank(),
    }
}

// Its cas, with a value and the set of processes that bear it.
pub(crate) fn cas_call(process: u32, round: u64, code: u64, set: u64) -> Call
    ensures { result ≡ cas_call process round code set }
{
    Call {
        process,
        code: CAS,
        template: make(DECISION_TEMPLATE, round, 0, 0, 0),
        entry: make(DECISION_ENTRY, round, code, set, 0),
    }
}
