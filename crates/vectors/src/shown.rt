// How a message is shown: its type, and its fields in the order of document 01's table.
use calls::print;
use std::io;
use std::io::Write;
use wire::{Head, Message};

pub(crate) fn print_message(out: &mut impl Write, m: Message) -> io::Result<()> {
    print(out, wire::type_of(m))?;
    match m {
        Message::Add {
            head,
            order,
            price,
            volume,
            side,
        } => print_fields(
            out,
            None,
            head,
            &[order, price.into(), volume.into(), side.into()],
        ),
        Message::Modify {
            head,
            order,
            price,
            volume,
            position,
            side,
        } => print_fields(
            out,
            None,
            head,
            &[
                order,
                price.into(),
                volume.into(),
                position.into(),
                side.into(),
            ],
        ),
        Message::Delete { head, order } => print_fields(out, None, head, &[order]),
        Message::Execute {
            head,
            order,
            trade,
            price,
            volume,
            printable,
        } => print_fields(
            out,
            None,
            head,
            &[
                order,
                trade.into(),
                price.into(),
                volume.into(),
                printable.into(),
            ],
        ),
        Message::Replace {
            head,
            order,
            new_order,
            price,
            volume,
            side,
        } => print_fields(
            out,
            None,
            head,
            &[order, new_order, price.into(), volume.into(), side.into()],
        ),
        Message::NonDisplayed {
            head,
            trade,
            price,
            volume,
            printable,
        } => print_fields(
            out,
            None,
            head,
            &[trade.into(), price.into(), volume.into(), printable.into()],
        ),
        Message::Cross {
            head,
            cross,
            price,
            volume,
            class,
        } => print_fields(
            out,
            None,
            head,
            &[cross.into(), price.into(), volume.into(), class.into()],
        ),
        Message::TradeCancel { head, trade } => print_fields(out, None, head, &[trade.into()]),
        Message::CrossCorrection {
            head,
            cross,
            volume,
        } => print_fields(out, None, head, &[cross.into(), volume.into()]),
        Message::Retail { head, indicator } => print_fields(out, None, head, &[indicator.into()]),
        Message::Imbalance { head, seconds }
        | Message::Clear { head, seconds }
        | Message::Status { head, seconds } => print_fields(out, Some(seconds), head, &[]),
    }
}

// In form S the seconds stand before the head.
fn print_fields(
    out: &mut impl Write,
    seconds: Option<u32>,
    head: Head,
    values: &[u64],
) -> io::Result<()> {
    if let Some(s) = seconds {
        print(out, s)?;
    }
    print(out, head.nanos)?;
    print(out, head.index)?;
    print(out, head.number)?;
    for value in values {
        print(out, *value)?;
    }
    Ok(())
}
