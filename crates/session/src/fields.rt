// A session's fields as words and back, and the ranges of 13 that one word says.
// Made by tools/record.py from the structs of crates/common/src/lib.rt.
ghost use Rattle.std.specs.Prelude.{◌≡◌, map};
ghost use Rattle.session.specs.Fields.{counts_of, floats_of, settings_of, floats_alone_of, common_of, session_of};
ghost use Rattle.session.specs.Fields.{lowest, highest};

use crate::states::{family, phase};
use common::{Common, MethodFamily, Settings};
use questions::Session;

// The least and the greatest value of a count.
#[derive(Clone, Copy)]
pub struct Range {
    pub low: usize,
    pub high: usize,
}

// Those of each count. The table is answered whole, to be bound once: an index into the constant writes all of it anew.
#[rattlefmt::skip]
const RANGES: [Range; common::COUNT_WORDS] = [
    Range { low: 0, high: 10 }, // phase
    Range { low: 1, high: common::MAX_STATES }, // n
    Range { low: 1, high: 1000000 }, // maxsteps
    Range { low: 1, high: 1000000 }, // mxordn
    Range { low: 1, high: 1000000 }, // mxords
    Range { low: 1, high: 1000000 }, // maxcor
    Range { low: 0, high: 1000000 }, // msbp
    Range { low: 0, high: 1000000 }, // mxncf
    Range { low: 0, high: 1 }, // supplied
    Range { low: 0, high: 1 }, // given
    Range { low: 0, high: 18446744073709551615 }, // nrtol
    Range { low: 0, high: 18446744073709551615 }, // natol
    Range { low: 1, high: 2 }, // meth
    Range { low: 1, high: 12 }, // nq
    Range { low: 2, high: 13 }, // lmax
    Range { low: 0, high: 18446744073709551615 }, // nqnyh
    Range { low: 1, high: 18446744073709551615 }, // ialth
    Range { low: 20, high: 1000020 }, // icount
    Range { low: 0, high: 1 }, // table
    Range { low: 0, high: 4611686018427387903 }, // nslp
    Range { low: 0, high: 4611686018427387903 }, // nst
    Range { low: 0, high: 4611686018427387903 }, // nfe
    Range { low: 0, high: 4611686018427387903 }, // nje
    Range { low: 0, high: 4611686018427387903 }, // nlu
    Range { low: 0, high: 4611686018427387903 }, // rejected
    Range { low: 0, high: 4611686018427387903 }, // total
    Range { low: 0, high: 4611686018427387903 }, // count
    Range { low: 0, high: 9 }, // kflag
    Range { low: 0, high: 18446744073709551615 }, // ncf
    Range { low: 0, high: 18446744073709551615 }, // m
    Range { low: 0, high: 18446744073709551615 }, // column
    Range { low: 0, high: 1 }, // due
    Range { low: 0, high: 1 }, // jcur
    Range { low: 0, high: 1 }, // setup
];

#[tactic(auto, unfolding(crate::specs::Fields::lowest, crate::specs::Fields::highest))]
pub fn ranges() -> [Range; common::COUNT_WORDS]
    ensures { (map (λ r. r.low) result ≡ lowest) × (map (λ r. r.high) result ≡ highest) }
{
    RANGES
}

// The counts of a session, flags and states among them.
pub fn counts(x: Session) -> [usize; common::COUNT_WORDS]
    ensures { result ≡ counts_of x }
{
    let s = x.settings;
    let c = x.common;
    [
        x.phase as usize,
        s.n,
        s.maxsteps,
        s.mxordn,
        s.mxords,
        s.maxcor,
        s.msbp,
        s.mxncf,
        usize::from(s.supplied),
        usize::from(s.given),
        s.nrtol,
        s.natol,
        c.meth as usize,
        c.nq,
        c.lmax,
        c.nqnyh,
        c.ialth,
        c.icount,
        c.table,
        c.nslp,
        c.nst,
        c.nfe,
        c.nje,
        c.nlu,
        c.rejected,
        c.total,
        c.count,
        c.kflag,
        c.ncf,
        c.m,
        c.column,
        usize::from(c.due),
        usize::from(c.jcur),
        usize::from(c.setup),
    ]
}

// The floats of a session.
pub fn floats(x: Session) -> [f64; common::FLOAT_WORDS]
    ensures { result ≡ floats_of x }
{
    let s = x.settings;
    let c = x.common;
    [
        s.xend,
        s.direction,
        c.hmin,
        c.hmxi,
        c.tn,
        c.h,
        c.hu,
        c.told,
        c.rc,
        c.el0,
        c.conit,
        c.rmax,
        c.pdest,
        c.pdlast,
        c.pdnorm,
        c.convrate,
        c.pnorm,
        c.rate,
        c.delp,
    ]
}

fn settings(u: &[usize; common::COUNT_WORDS], f: &[f64; common::FLOAT_WORDS]) -> Settings
    ensures { result ≡ settings_of u.now f.now }
{
    Settings {
        n: u[1],
        xend: f[0],
        direction: f[1],
        maxsteps: u[2],
        mxordn: u[3],
        mxords: u[4],
        maxcor: u[5],
        msbp: u[6],
        mxncf: u[7],
        supplied: u[8] == 1,
        given: u[9] == 1,
        nrtol: u[10],
        natol: u[11],
    }
}

// The record with its floats alone: a record of all fields, each from an array, takes long to check.
fn floats_alone(f: &[f64; common::FLOAT_WORDS]) -> Common
    ensures { result ≡ floats_alone_of f.now }
{
    Common {
        hmin: f[2],
        hmxi: f[3],
        tn: f[4],
        h: f[5],
        hu: f[6],
        told: f[7],
        rc: f[8],
        el0: f[9],
        conit: f[10],
        rmax: f[11],
        pdest: f[12],
        pdlast: f[13],
        pdnorm: f[14],
        convrate: f[15],
        pnorm: f[16],
        rate: f[17],
        delp: f[18],
        meth: MethodFamily::Adams,
        nq: 0,
        lmax: 0,
        nqnyh: 0,
        ialth: 0,
        icount: 0,
        table: 0,
        nslp: 0,
        nst: 0,
        nfe: 0,
        nje: 0,
        nlu: 0,
        rejected: 0,
        total: 0,
        count: 0,
        kflag: 0,
        ncf: 0,
        m: 0,
        column: 0,
        due: false,
        jcur: false,
        setup: false,
    }
}

fn common(u: &[usize; common::COUNT_WORDS], f: &[f64; common::FLOAT_WORDS]) -> Common
    ensures { result ≡ common_of u.now f.now }
{
    Common {
        meth: family(u[12]),
        nq: u[13],
        lmax: u[14],
        nqnyh: u[15],
        ialth: u[16],
        icount: u[17],
        table: u[18],
        nslp: u[19],
        nst: u[20],
        nfe: u[21],
        nje: u[22],
        nlu: u[23],
        rejected: u[24],
        total: u[25],
        count: u[26],
        kflag: u[27],
        ncf: u[28],
        m: u[29],
        column: u[30],
        due: u[31] == 1,
        jcur: u[32] == 1,
        setup: u[33] == 1,
        ..floats_alone(f)
    }
}

pub fn session(u: &[usize; common::COUNT_WORDS], f: &[f64; common::FLOAT_WORDS]) -> Session
    ensures { result ≡ session_of u.now f.now }
{
    Session {
        settings: settings(u, f),
        common: common(u, f),
        phase: phase(u[0]),
    }
}
