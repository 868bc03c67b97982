use admission::plan::Plan;
use record_bytes::records::Records;
use script::session::Session;

// A program that has still to print: where it stands, the records that are left, and the plan with all flows admitted.
#[derive(Drop)]
pub struct Printout<'a> {
    pub session: Session,
    pub records: Records<'a>,
    pub plan: Plan,
}

// Some whole lines, and what is to be printed after them.
#[derive(Drop)]
pub struct Part<'a> {
    pub text: String,
    pub rest: Option<Printout<'a>>,
}
