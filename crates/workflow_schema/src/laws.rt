//! Laws of orders. The function does nothing; its contract is the law.
ghost use Rattle.workflow_schema.specs.Laws.{IsChainTest, IsChained, OrderIsDecided};

/// The test `is_before` tells chains of order pairs, and such chains can be joined.
pub fn order_is_chained()
    ensures test { IsChainTest }
    ensures chained { IsChained }
    ensures decided { OrderIsDecided }
{}
