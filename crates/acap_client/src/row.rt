//! `Row`: a row of a context, as a line printed it.

use crate::data::Data;
use crate::draft::Token;
use acap_entries::{Label, Memory};
use std::alloc::Global;
use std::marker::Model;

/// A row of a context as a line printed it: the name of its entry, and the data after it (RFC 2244 sections 6.4.2, 6.5.3 and 6.5.5).
#[derive(Drop)]
pub struct Row {
    name: Label,
    tokens: Vec<Token>,
}

impl Model for Row {
    ghost use Rattle.acap_grammar.specs.Printed.{PrintedRow};
    ghost use Rattle.acap_client.specs.Codes.{row_code};
    ghost use Rattle.acap_client.specs.Data.{data_of};

    ghost Value = { PrintedRow };

    ghost coded = { row_code };

    ghost view = { λ row. record { name = row.name; items = data_of row.tokens.items } };
}

impl Row {
    ghost use Rattle.std.specs.Prelude.{◌≡◌, IfOk};
    ghost use Rattle.acap_client.specs.Arguments.{data_in};
    ghost use Rattle.acap_client.specs.Following.{row_of};

    /// The row of an entry with these data, copied. Fails only for want of memory.
    pub(crate) fn read(alloc: Global, name: &[u8], items: &Data) -> Result<Row, Memory>
        ensures { IfOk result (λ row. row ≡ row_of name.now (data_in items.now)) }
    {
        let name = Label::from_slice(alloc, name)?;
        let tokens = items.copy_tokens(alloc)?;
        Ok(Row { name, tokens })
    }

    /// The name of its entry.
    pub fn name(&self) -> &[u8]
        ensures { result.now ≡ self.now.name }
    {
        self.name.as_slice()
    }

    /// Its data, to be read one by one.
    pub fn items(&self) -> Data<'_>
        ensures { data_in result ≡ self.now.items }
    {
        Data::new(&self.tokens)
    }
}
