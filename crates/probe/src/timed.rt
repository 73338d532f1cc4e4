// Other nanoseconds for a message: bad ones show the writer's and the line's own check.
use wire::Message;

pub(crate) fn set_nanos(m: &mut Message, nanos: u32) {
    match m {
        Message::Add { head, .. }
        | Message::Modify { head, .. }
        | Message::Delete { head, .. }
        | Message::Execute { head, .. }
        | Message::Replace { head, .. }
        | Message::Imbalance { head, .. }
        | Message::NonDisplayed { head, .. }
        | Message::Cross { head, .. }
        | Message::TradeCancel { head, .. }
        | Message::CrossCorrection { head, .. }
        | Message::Retail { head, .. }
        | Message::Clear { head, .. }
        | Message::Status { head, .. } => head.nanos = nanos,
    }
}
