// What is pending of a term: its operators whose right operand isn't whole.
ghost use Rattle.std.specs.Prelude.{◌≡◌, IfSome, IfOk, OnOk};
ghost use Rattle.ms_read_term.specs.Closing.{op_of_sum, op_of_product, with_product, with_sum, with_low, no_level, is_bare, closed_product, closed_sum, closed_term};

use crate::make::{binary, interval};
use ms_base::memory::OutOfMemory;
use ms_grammar::part::Part;
use ms_tree::Op;
use std::alloc::Global;

/// An operator of a sum.
#[derive(Clone, Copy)]
pub(crate) enum SumSign {
    Plus,
    Minus,
}

impl SumSign {
    fn op(self) -> Op
        ensures { result ≡ op_of_sum self }
    {
        match self {
            SumSign::Plus => Op::Add,
            SumSign::Minus => Op::Sub,
        }
    }
}

/// An operator of a product.
#[derive(Clone, Copy)]
pub(crate) enum ProductSign {
    Times,
    Over,
    Modulo,
}

impl ProductSign {
    fn op(self) -> Op
        ensures { result ≡ op_of_product self }
    {
        match self {
            ProductSign::Times => Op::Mul,
            ProductSign::Over => Op::Div,
            ProductSign::Modulo => Op::Rem,
        }
    }
}

/// A sum with the operator after it.
#[derive(Drop)]
pub(crate) struct PendingSum {
    pub part: Part,
    pub sign: SumSign,
}

/// A product with the operator after it.
#[derive(Drop)]
pub(crate) struct PendingProduct {
    pub part: Part,
    pub sign: ProductSign,
}

/// What stands of a term before the part that is wanted or was read last: the low end of an interval,
/// a sum, a product and minuses.
#[derive(Drop)]
pub(crate) struct Level {
    pub low: Option<Part>,
    pub sum: Option<PendingSum>,
    pub product: Option<PendingProduct>,
    pub minuses: u8,
}

impl Level {
    /// Nothing stands.
    pub fn new() -> Self
        ensures { result ≡ no_level }
    {
        Level {
            low: None,
            sum: None,
            product: None,
            minuses: 0,
        }
    }

    pub fn is_empty(&self) -> bool
        ensures { result ≡ is_bare self.now }
    {
        self.minuses == 0 && self.product.is_none() && self.sum.is_none() && self.low.is_none()
    }

    /// Takes the product that ends with this part.
    pub fn close_product(&mut self, alloc: Global, part: Part) -> Result<Option<Part>, OutOfMemory>
        ensures made { IfOk result (λ made. made ≡ closed_product self.old part) }
        ensures left { OnOk result (self.new ≡ record self.old { product = None }) }
    {
        with_product(alloc, self.product.take(), part)
    }

    /// Takes the sum that ends with this part.
    pub fn close_sum(&mut self, alloc: Global, part: Part) -> Result<Option<Part>, OutOfMemory>
        ensures made { IfOk result (λ made. made ≡ closed_sum self.old part) }
        ensures left { IfOk result (λ made. IfSome made (λ _. self.new ≡ record self.old { sum = None; product = None })) }
    {
        let Some(part) = self.close_product(alloc, part)? else {
            return Ok(None);
        };
        with_sum(alloc, self.sum.take(), part)
    }

    /// The term that ends with this part.
    pub fn close_term(mut self, alloc: Global, part: Part) -> Result<Option<Part>, OutOfMemory>
        ensures { IfOk result (λ made. made ≡ closed_term self part) }
    {
        let Some(part) = self.close_sum(alloc, part)? else {
            return Ok(None);
        };
        with_low(alloc, self.low, part)
    }
}

// The product that ends with this part.
fn with_product(
    alloc: Global,
    pending: Option<PendingProduct>,
    part: Part,
) -> Result<Option<Part>, OutOfMemory>
    ensures { IfOk result (λ made. made ≡ with_product pending part) }
{
    match pending {
        None => Ok(Some(part)),
        Some(left) => binary(alloc, left.sign.op(), left.part, part),
    }
}

// The sum that ends with this part.
fn with_sum(
    alloc: Global,
    pending: Option<PendingSum>,
    part: Part,
) -> Result<Option<Part>, OutOfMemory>
    ensures { IfOk result (λ made. made ≡ with_sum pending part) }
{
    match pending {
        None => Ok(Some(part)),
        Some(left) => binary(alloc, left.sign.op(), left.part, part),
    }
}

// The term that ends with this part.
fn with_low(alloc: Global, pending: Option<Part>, part: Part) -> Result<Option<Part>, OutOfMemory>
    ensures { IfOk result (λ made. made ≡ with_low pending part) }
{
    match pending {
        None => Ok(Some(part)),
        Some(low) => interval(alloc, low, part),
    }
}
