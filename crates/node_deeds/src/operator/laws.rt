ghost use Rattle.node_deeds.specs.OperatorLaws.{OrdersAddNoLeaf, OrdersKeepTheRole};

/// A law: an order adds no leaf.
pub fn operator_orders_add_no_leaf()
    ensures { OrdersAddNoLeaf }
{}

/// A law: an operator's records are still an operator's with the record that an order adds.
pub fn operator_orders_keep_the_role()
    ensures { OrdersKeepTheRole }
{}
