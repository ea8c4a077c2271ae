ghost use Rattle.ira_view_page.specs.Printable.{IsPrintable};

use crate::carets::carets_below;
use crate::faulty_link::FaultyLink;
use crate::numbered::numbered_page;
use ira_view_evidence::{Exchange, nth_receipt, nth_sending};
use ira_view_page::{Emphasis, Page, Row, Table, line_of};
use std::alloc::Allocator;

/// `FILE:LINE: LOAD`, or a dash.
fn exchange_cell<A: Allocator>(alloc: A, file: &str, exchange: Option<Exchange>) -> Page<A> {
    let mut cell = Page::new(alloc);
    match exchange {
        Some(Exchange { at, load }) => {
            cell.place(file, line_of(at.position));
            cell.words(": ");
            cell.load(load);
        }
        None => cell.words("-"),
    }
    cell
}

/// Whether a sending and the receipt of its number are of one load; nothing where there is one of them alone.
fn comparison(sending: Option<Exchange>, receipt: Option<Exchange>) -> &'static str
    ensures { IsPrintable result.now }
{
    match (sending, receipt) {
        (Some(sending), Some(receipt)) if sending.load == receipt.load => "same",
        (Some(_), Some(_)) => "differs",
        _ => "",
    }
}

impl<'l, A: Allocator> FaultyLink<'_, 'l, A> {
    /// A row without a number: something of the sender and something of the receiver.
    fn sides_row(&self, sender: Page<&'l A>, receiver: Page<&'l A>) -> Row<&'l A> {
        let mut row = Row::new(self.alloc);
        row.left(Page::new(self.alloc));
        row.left(sender);
        row.left(receiver);
        row
    }

    /// Adds the sending and the receipt of a number, with carets where it is the one that is told of.
    fn add_exchange(&self, table: &mut Table<&'l A>, k: u32) {
        let alloc = self.alloc;
        let sending = nth_sending(self.logs, self.link, k);
        let receipt = nth_receipt(self.logs, self.link, k);
        let mut number = Page::new(alloc);
        number.number_to(5, k as u64);
        let mut same = Page::new(alloc);
        same.words(comparison(sending, receipt));
        let mut row = Row::new(alloc);
        row.left(number);
        row.left(exchange_cell(alloc, self.writer_file, sending));
        row.left(exchange_cell(alloc, self.reader_file, receipt));
        row.left(same);
        if k == self.k {
            table.add(Emphasis::Named, row);
            self.add_carets(table);
        } else {
            table.add(Emphasis::Plain, row);
        }
    }

    /// Adds carets below what the sending and the receipt that are told of differ in.
    fn add_carets(&self, table: &mut Table<&'l A>) {
        if let Some(sending) = self.sending {
            let (sent, received) = (sending.load, self.receipt.load);
            let sent_cell = exchange_cell(self.alloc, self.writer_file, Some(sending));
            let received_cell = exchange_cell(self.alloc, self.reader_file, Some(self.receipt));
            let sender = carets_below(self.alloc, &sent_cell, sent, received);
            let receiver = carets_below(self.alloc, &received_cell, received, sent);
            if let (Some(sender), Some(receiver)) = (sender, receiver) {
                table.add(Emphasis::Plain, self.sides_row(sender, receiver));
            }
        }
    }

    /// The exchanges around the one that is told of: two before it and three after it.
    pub(crate) fn exchange_table(&self) -> Table<&'l A> {
        let mut table = Table::new(self.alloc);
        let sender = numbered_page(self.alloc, "sent by node ", u32::from(self.link));
        let receiver = numbered_page(self.alloc, "received by node ", u32::from(self.reader));
        table.add(Emphasis::Plain, self.sides_row(sender, receiver));
        let exchanges = self.sides.sent.len().max(self.sides.received.len());
        for k in self.k.saturating_sub(2).max(1)..=self.k.saturating_add(3) {
            if k as usize <= exchanges {
                self.add_exchange(&mut table, k);
            }
        }
        table
    }
}
