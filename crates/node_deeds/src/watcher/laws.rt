ghost use Rattle.node_deeds.specs.WatcherLaws.{OrdersAddNoLeaf, OrdersKeepTheRole};

/// A law: an order adds no leaf.
pub fn watcher_orders_add_no_leaf()
    ensures { OrdersAddNoLeaf }
{}

/// A law: a watcher's records are still a watcher's with the record that an order adds.
pub fn watcher_orders_keep_the_role()
    ensures { OrdersKeepTheRole }
{}
