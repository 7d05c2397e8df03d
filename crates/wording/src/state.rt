// What a token keeps over a reset, and what it loses: its session.
use super::labelled;
use authorization::authorization;
use buffers::Sheet;
use days::Day;
use event::Issuer;
use rights::Rights;
use run::{Password, Step};
use session::Session;
use standing::{Chain, Stage};
use trust::Points;
use words::count;

// What a token keeps over a reset.
#[derive(Clone, Copy)]
pub struct KeptOverReset {
    pub pin: u8,
    pub active: bool,
    pub puk: u8,
    pub today: Day,
    pub points: Points,
}

impl KeptOverReset {
    fn counters(self, out: &mut Sheet) {
        labelled::number(out, b"pin=", self.pin as u64);
        out.put(if self.active {
            b" active=yes"
        } else {
            b" active=no"
        });
        labelled::number(out, b" puk=", self.puk as u64)
    }

    fn trusted(self, out: &mut Sheet) {
        let listed = self.points.names();
        labelled::day(out, b" today=", self.today);
        labelled::name(out, b" newest=", Some(listed.first));
        labelled::name(out, b" previous=", listed.second)
    }
}

fn opener(o: Option<Password>) -> &'static [u8] {
    match o {
        None => b" opened=none",
        Some(Password::Mrz) => b" opened=mrz",
        Some(Password::Can) => b" opened=can",
        Some(Password::Pin) => b" opened=pin",
        Some(Password::Puk) => b" opened=puk",
    }
}

fn reached(s: Stage) -> &'static [u8] {
    match s {
        Stage::Idle => b" stage=idle",
        Stage::Run(_, Step::Nonce) => b" stage=step1",
        Stage::Run(_, Step::Map) => b" stage=step2",
        Stage::Run(_, Step::Agree) => b" stage=step3",
        Stage::Run(_, Step::Confirm) => b" stage=step4",
        Stage::Announced => b" stage=announced",
        Stage::Challenged => b" stage=challenged",
        Stage::Proven => b" stage=proven",
        Stage::ChipKeyChosen => b" stage=chosen",
        Stage::Authenticated => b" stage=authenticated",
    }
}

fn granted(out: &mut Sheet, g: Option<Rights>) {
    match g {
        Some(r) => labelled::rights(out, b" confirmed=", r),
        None => out.put(b" confirmed=none"),
    }
}

fn chained(out: &mut Sheet, c: Chain) {
    let dv = c.has_dv().then_some(c.dv.name);
    let terminal = c.has_terminal().then_some(c.terminal.name);
    labelled::name(out, b" dv=", dv);
    labelled::name(out, b" terminal=", terminal)
}

fn issuer(s: Option<Issuer>) -> &'static [u8] {
    match s {
        None => b" selected=none",
        Some(Issuer::Newest) => b" selected=newest",
        Some(Issuer::Previous) => b" selected=previous",
        Some(Issuer::Dv) => b" selected=dv",
    }
}

// What is lost at a reset, and the rights that a session has in effect.
fn lost(out: &mut Sheet, s: Session) {
    let context = s.context;
    out.put(opener(context.opened));
    out.put(reached(context.stage));
    granted(out, context.confirmed);
    chained(out, context.chain);
    out.put(issuer(s.selected));
    labelled::rights(out, b" effective=", authorization(context))
}

// What a token keeps, and its session; nothing, and None, where the line has another word.
pub fn state(line: &[u8], out: &mut Sheet, kept: KeptOverReset, session: Session) -> Option<()> {
    if count(line, b' ') != 0 {
        return None;
    }
    kept.counters(out);
    kept.trusted(out);
    lost(out, session);
    Some(())
}
