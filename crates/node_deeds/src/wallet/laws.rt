ghost use Rattle.node_deeds.specs.WalletLaws.{OrdersAddOneRecord, OrdersKeepTheRole};

/// A law: an order adds a note or a leaf's record at most.
pub fn wallet_orders_add_one_record()
    ensures { OrdersAddOneRecord }
{}

/// A law: the records of a wallet stay a wallet's with what an order adds to them.
pub fn wallet_orders_keep_the_role()
    ensures { OrdersKeepTheRole }
{}
