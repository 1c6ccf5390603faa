// The receivers of a set, as a list of their subscriptions: who provides, and who is below whom.
ghost use Rattle.std.specs.Prelude.{◌≡◌, ◌==◌, suc, length};
ghost use Rattle.std.specs.List.{list_any};
ghost use Rattle.std.specs.Option.{option_map};
ghost use Rattle.slon_model.specs.Maps.{entry_at};
ghost use Rattle.slon_model.specs.Subscribing as rules;

use node_rows::Subscription;

/// Whether one of them has the set from this node.
pub(crate) fn provides(rows: &[(u32, Subscription)], node: u32) -> bool
    ensures { result ≡ list_any (λ e. e.1.provider == node) rows.now }
{
    rows.iter().any(|(_, row)| row.provider == node)
}

/// From which node this one has the set, if it receives the set.
fn provider_of(rows: &[(u32, Subscription)], node: u32) -> Option<u32>
    ensures { result ≡ option_map (λ row. row.provider) (entry_at node rows.now) }
{
    for (receiver, row) in rows {
        if node == *receiver {
            return Some(row.provider);
        }
    }
    None
}

/// Whether one comes from a node to the receiver by the providers of these subscriptions.
pub(crate) fn leads_to(rows: &[(u32, Subscription)], receiver: u32, from: u32) -> bool
    ensures { result ≡ rules.leads_to (suc (length rows.now)) receiver rows.now from }
{
    let mut node = from;
    for _ in 0..rows.len() {
        if node == receiver {
            return true;
        }
        match provider_of(rows, node) {
            None => return false,
            Some(provider) => node = provider,
        }
    }
    node == receiver
}
