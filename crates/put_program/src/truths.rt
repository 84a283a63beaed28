//! Truth values as pages store them.

ghost use Rattle.std.specs.Prelude.{map, option_map};
ghost use Rattle.columns_core.specs.Column.{cell_of};
ghost use Rattle.columns_core.specs.ElementType.{is_boolean};
ghost use Rattle.columns_core.specs.declared.cell.Cell.{Bool as TruthCell};
ghost use Rattle.parquet_meta.specs.declared.metadata.PhysicalType.TheVariants as types;
ghost use Rattle.parquet_page.specs.Stored.{Truth};
ghost use Rattle.put_program.specs.Kinds as kind;
ghost use Rattle.put_program.specs.Ordered as order;
ghost use Rattle.put_program.specs.Orders.{truths_at_most};
ghost use Rattle.put_program.specs.Valued as values;

use crate::typed::Typed;
use columns_core::BooleanArray;
use parquet_write::Items;
use std::alloc::AllocError;

/// An array of truth values as items.
#[derive(Clone, Copy)]
pub(crate) struct Truths<'a> {
    pub array: &'a BooleanArray,
}

impl<'a> Items for Truths<'a> {
    ghost items = { λ own. map (option_map Truth) own.array.now.items };

    ghost type_ = { λ own. types.Boolean };

    ghost at_most = { λ own. truths_at_most };

    ghost ordered = { λ own. order.total_truths _ };

    fn rows(&self) -> usize {
        self.array.len()
    }

    fn is_there(&self, row: usize) -> bool {
        self.array.get(row).is_some()
    }

    /// Bits, the first in the lowest; those that are left over are 0.
    fn write_values(&self, body: &mut Vec<u8>, from: usize, to: usize) -> Result<(), AllocError> {
        let mut byte: u32 = 0;
        let mut weight: u32 = 1;
        for row in from..to {
            if let Some(truth) = self.array.get(row) {
                if truth {
                    byte += weight;
                }
                if weight == 128 {
                    body.push(byte as u8)?;
                    byte = 0;
                    weight = 1;
                } else {
                    weight *= 2;
                }
            }
        }
        if weight > 1 {
            body.push(byte as u8)?;
        }
        Ok(())
    }

    fn write_end(&self, bytes: &mut Vec<u8>, row: usize) -> Result<(), AllocError> {
        let end = if self.array.get(row) == Some(true) {
            1
        } else {
            0
        };
        bytes.push(end)?;
        Ok(())
    }

    fn is_at_most(&self, first: usize, second: usize) -> bool {
        self.array.get(first) != Some(true) || self.array.get(second) == Some(true)
    }
}

impl<'a> Typed for Truths<'a> {
    ghost data_type = { λ own. own.array.now.data_type };

    ghost cells = { λ own. map (cell_of TruthCell) own.array.now.items };

    ghost is_own = { λ own. is_boolean own.array.now.data_type };

    ghost stored = { λ own is_own. values.of_values TruthCell Truth (kind.of_truths own.array.now.data_type is_own) own.array.now.items };
}
