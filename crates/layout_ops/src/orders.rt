ghost use Rattle.std.specs.Prelude.{◌≡◌, ◌++◌, ◌<◌, ◌^◌, OnOk};
ghost use Rattle.layout_types.specs.Grammar.{enum_part};
ghost use Rattle.layout_ops.specs.Enumerations.{order_number, order_of, order_result_number, order_result_of};
ghost use Rattle.layout_ops.specs.Grammar.{Gives};
ghost use Rattle.layout_ops.specs.Spelling.{order_item, OrderFits, order_answer_item};
ghost use Rattle.layout_ops.specs.Reading.{order_kind_field, order_result_field, order_in, order_answer_in};

use crate::err::OpErr;
use crate::parts::read_u32;
use layout_types::LayoutErr;
use osd_lists::Memory;
use xdr_codec::{Reader, Writer};

/// What an order tells the server to do.
#[derive(Clone, Copy, PartialEq, Eq)]
pub enum OrderKind {
    /// 1: ask all layouts of a file back.
    Recall,
    /// 2: end all layouts of a file, and fence their holders off.
    Revoke,
    /// 3: take a drive as lost.
    Declare,
    /// 4: make the lost components of a file anew on other drives.
    Rebuild,
    /// 5: look whether the parity and the mirrors of a file are right.
    Audit,
}

/// What the server says to an order.
#[derive(Clone, Copy, PartialEq, Eq)]
pub enum OrderResult {
    /// 0: it has begun.
    Started,
    /// 1: it is at other work on the file.
    Busy,
    /// 2: the file's greatest tag is in use, so nobody can be fenced off any more.
    Spent,
    /// 3: there is no such file or drive.
    Unknown,
}

/// An order to the server.
#[derive(Clone, Copy, PartialEq, Eq)]
pub struct Order {
    /// What is to be done.
    pub order: OrderKind,
    /// To which file, or for [`OrderKind::Declare`] to which drive.
    pub target: u32,
}

/// The server's answer to an order.
#[derive(Clone, Copy, PartialEq, Eq)]
pub struct OrderAnswer {
    /// What was to be done.
    pub order: OrderKind,
    /// What came of it.
    pub result: OrderResult,
}

impl OrderKind {
    /// The number of the order.
    pub fn number(self) -> u32
        ensures number { result ≡ order_number self }
        ensures fits { result < 2 ^ 32 }
    {
        match self {
            OrderKind::Recall => 1,
            OrderKind::Revoke => 2,
            OrderKind::Declare => 3,
            OrderKind::Rebuild => 4,
            OrderKind::Audit => 5,
        }
    }

    /// The order of a number, where there is one.
    pub fn from_number(number: u32) -> Option<OrderKind>
        ensures { result ≡ order_of number }
    {
        match number {
            1 => Some(OrderKind::Recall),
            2 => Some(OrderKind::Revoke),
            3 => Some(OrderKind::Declare),
            4 => Some(OrderKind::Rebuild),
            5 => Some(OrderKind::Audit),
            _ => None,
        }
    }
}

impl OrderResult {
    /// The number of the result.
    pub fn number(self) -> u32
        ensures number { result ≡ order_result_number self }
        ensures fits { result < 2 ^ 32 }
    {
        match self {
            OrderResult::Started => 0,
            OrderResult::Busy => 1,
            OrderResult::Spent => 2,
            OrderResult::Unknown => 3,
        }
    }

    /// The result of a number, where there is one.
    pub fn from_number(number: u32) -> Option<OrderResult>
        ensures { result ≡ order_result_of number }
    {
        match number {
            0 => Some(OrderResult::Started),
            1 => Some(OrderResult::Busy),
            2 => Some(OrderResult::Spent),
            3 => Some(OrderResult::Unknown),
            _ => None,
        }
    }
}

#[tactic(auto, unfolding(crate::specs::Reading::order_kind_field, crate::specs::Grammar::u32_field, layout_types::specs::Grammar::enum_part))]
fn read_order_kind(reader: &mut Reader<'_>) -> Result<OrderKind, OpErr>
    ensures { Gives (order_kind_field reader.old) result reader.new }
{
    let at = reader.place();
    let value = read_u32(reader)?;
    match OrderKind::from_number(value) {
        Some(order) => Ok(order),
        None => Err(OpErr::Layout(LayoutErr::BadEnum { at, value })),
    }
}

#[tactic(auto, unfolding(crate::specs::Reading::order_result_field, crate::specs::Grammar::u32_field, layout_types::specs::Grammar::enum_part))]
fn read_order_result(reader: &mut Reader<'_>) -> Result<OrderResult, OpErr>
    ensures { Gives (order_result_field reader.old) result reader.new }
{
    let at = reader.place();
    let value = read_u32(reader)?;
    match OrderResult::from_number(value) {
        Some(answer) => Ok(answer),
        None => Err(OpErr::Layout(LayoutErr::BadEnum { at, value })),
    }
}

#[tactic(auto, unfolding(crate::specs::Reading::order_in))]
pub(crate) fn read_order(reader: &mut Reader<'_>) -> Result<Order, OpErr>
    ensures { Gives (order_in reader.old) result reader.new }
{
    Ok(Order {
        order: read_order_kind(reader)?,
        target: read_u32(reader)?,
    })
}

pub(crate) fn put_order(writer: &mut Writer, order: &Order) -> Result<(), Memory>
    ensures written { OnOk result (writer.new ≡ writer.old ++ order_item order.now) }
    ensures fits { OnOk result (OrderFits order.now) }
{
    writer.u32(order.order.number())?;
    writer.u32(order.target)
}

#[tactic(auto, unfolding(crate::specs::Reading::order_answer_in))]
pub(crate) fn read_order_answer(reader: &mut Reader<'_>) -> Result<OrderAnswer, OpErr>
    ensures { Gives (order_answer_in reader.old) result reader.new }
{
    Ok(OrderAnswer {
        order: read_order_kind(reader)?,
        result: read_order_result(reader)?,
    })
}

pub(crate) fn put_order_answer(writer: &mut Writer, answer: &OrderAnswer) -> Result<(), Memory>
    ensures written { OnOk result (writer.new ≡ writer.old ++ order_answer_item answer.now) }
{
    writer.u32(answer.order.number())?;
    writer.u32(answer.result.number())
}
