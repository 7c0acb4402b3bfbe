// An order to the server, and its answer.
ghost use Rattle.std.specs.Prelude.{◌≡◌, ◌⊎◌, ◌++◌, Some, IfOk, OnErr};
ghost use Rattle.osd_lists.specs.declared.node.Node.TheVariants.{Server};
ghost use Rattle.cluster_text.specs.Peers.{KeepsAddresses};
ghost use Rattle.client_command.specs.Exchanges.{CutsExchange};
ghost use Rattle.layout_ops.specs.Enumerations.{order_result_number};
ghost use Rattle.layout_ops.specs.Reading.{envelope_of};
ghost use Rattle.client_command.specs.WorkEnds.{end_by_result};
ghost use Rattle.client_command.specs.Lines.{next_of, order_line};
ghost use Rattle.client_command.specs.Orders.{Answers, answer_read, order_message, sent_order};
ghost use Rattle.client_command.specs.OnLinks.{links_at};
ghost use Rattle.client_command.specs.Reports.{CutsOrder, IsReport, ReportsOrder};

use crate::lines::{order_text, push_given};
use crate::work_ends::{Report, end_by_result};
use command_words::{FirstNumber, Order};
use layout_ops::{
    Envelope, OpErr, Order as SentOrder, OrderKind, OrderResult, read_envelope, write_envelope,
};
use osd_bytes::{Links, asked};
use osd_lists::{Bytes, Memory, Node};
use std::alloc::Global;

// The order as the server takes it.
fn sent_order(order: Order) -> SentOrder
    ensures { result ≡ sent_order order }
{
    match order {
        Order::Recall(file) => SentOrder {
            order: OrderKind::Recall,
            target: file.number(),
        },
        Order::Revoke(file) => SentOrder {
            order: OrderKind::Revoke,
            target: file.number(),
        },
        Order::Declare(drive) => SentOrder {
            order: OrderKind::Declare,
            target: drive.number(),
        },
        Order::Rebuild(file) => SentOrder {
            order: OrderKind::Rebuild,
            target: file.number(),
        },
        Order::Audit(file) => SentOrder {
            order: OrderKind::Audit,
            target: file.number(),
        },
    }
}

// What the bytes of a record answer to an order of this kind, `None` if they aren't its answer.
fn answer_in(alloc: Global, order: OrderKind, bytes: &[u8]) -> Result<Option<OrderResult>, Memory>
    ensures { IfOk result (λ answer. answer ≡ answer_read order (envelope_of bytes.now)) }
{
    match read_envelope(alloc, bytes) {
        Ok(Envelope::OrderAnswer(answer)) if answer.order.number() == order.number() => {
            Ok(Some(answer.result))
        }
        Ok(_) => Ok(None),
        Err(OpErr::Memory) => Err(Memory),
        Err(_) => Ok(None),
    }
}

// Hands the server an order, and gives what the server answers, `None` if its answer doesn't come.
fn answer_of<L: Links>(
    alloc: Global,
    order: SentOrder,
    links: &mut L,
) -> Result<Option<OrderResult>, Memory>
    ensures answers { IfOk result (Answers order (L.told links.old) (L.told links.new)
        (L.faults links.old) (L.faults links.new)) }
    ensures cuts { OnErr result ((links_at L.Links links.new ≡ links_at L.Links links.old)
        ⊎ CutsExchange Server (order_message order) (L.told links.old) (L.told links.new)
        (L.faults links.old) (L.faults links.new)) }
    ensures addresses { KeepsAddresses (L.standing links.old) (L.standing links.new) }
{
    let message = write_envelope(alloc, &Envelope::Order(order))?;
    match asked(alloc, links, Node::Server, message.as_slice())? {
        Some(record) => answer_in(alloc, order.order, record.as_slice()),
        None => Ok(None),
    }
}

// The report of an order that was answered so. The order used up no request of the client.
fn report_answer(alloc: Global, first: FirstNumber, answer: OrderResult) -> Result<Report, Memory>
    ensures { IfOk result (IsReport (order_line (order_result_number answer) ++ next_of first)
        (Some (end_by_result answer))) }
{
    let mut text = order_text(alloc, answer.number())?;
    push_given(alloc, &mut text, first)?;
    Ok(Report {
        text,
        end: Some(end_by_result(answer)),
    })
}

/// Hands the server an order, in one exchange. Orders have no numbers: one that was given is told again.
pub(crate) fn report_order<L: Links>(
    alloc: Global,
    first: FirstNumber,
    order: Order,
    links: &mut L,
) -> Result<Report, Memory>
    ensures reports { IfOk result (ReportsOrder first order
        (links_at L.Links links.old) (links_at L.Links links.new)) }
    ensures cuts { OnErr result (CutsOrder order (links_at L.Links links.old) (links_at L.Links links.new)) }
    ensures addresses { KeepsAddresses (L.standing links.old) (L.standing links.new) }
{
    match answer_of(alloc, sent_order(order), links)? {
        Some(answer) => report_answer(alloc, first, answer),
        None => Ok(Report {
            text: Bytes::new(alloc),
            end: None,
        }),
    }
}
