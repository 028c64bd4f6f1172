// Five finders of five independent kinds, a key table and a screen under one value.
#![tactic(auto)]

ghost use Rattle.std.specs.Prelude.{◌≡◌, ◌+◌, min, if◌then◌else◌};
ghost use Rattle.finders.specs.Finding.{label_place, best_label};
ghost use Rattle.arrangement.specs.Lookups.{or_whole, key_of, screened};

use fields::numbers::Label;
use keytables::key::Key;
use keytables::table::KeyTable;
use places::five::{Five, Supports};
use places::front::Front;
use places::located::Located;
use screens::screen::Screen;

// What stands under an engine.
#[derive(Drop)]
pub struct Under<F, T, X> {
    pub front: F,
    pub table: T,
    pub screen: X,
}

// What was found in the five places, and what the table has under it.
#[derive(Clone, Copy)]
pub struct Found {
    pub located: Located,
    pub entry: Option<u16>,
}

// The label that was found, or that of the whole pattern.
fn or_whole(label: Option<Label>) -> Label
    ensures { result ≡ or_whole label }
{
    label.unwrap_or(Label { place: 0 })
}

fn key_of(subset: u8, located: Located) -> Key
    ensures { result ≡ key_of subset located }
{
    Key {
        subset,
        labels: located.map(or_whole),
    }
}

// The best labels of a header, each by the finder and the kind of its own place, and what the table has under them if the screen lets their
// key through.
pub fn look_up<S: Supports, T: KeyTable, X: Screen>(
    under: &mut Under<Five<S>, T, X>,
    header: &S::Header,
    subset: u8,
) -> Found
    requires source { S.Source.Spot.ready under.old.front.source }
    requires destination { S.Destination.Spot.ready under.old.front.destination }
    requires sport { S.SourcePort.Spot.ready under.old.front.sport }
    requires dport { S.DestinationPort.Spot.ready under.old.front.dport }
    requires protocol { S.Protocol.Spot.ready under.old.front.protocol }
    requires table { T.KeyTable.ready under.old.table }
    requires screen { X.Screen.ready under.old.screen }
    ensures source { label_place result.located.addresses.source ≡ best_label S.Source.Spot.kind.nest (S.Source.Spot.held under.old.front.source) (S.Source.Spot.value header.now) }
    ensures destination { label_place result.located.addresses.destination ≡ best_label S.Destination.Spot.kind.nest (S.Destination.Spot.held under.old.front.destination) (S.Destination.Spot.value header.now) }
    ensures sport { label_place result.located.ports.source ≡ best_label S.SourcePort.Spot.kind.nest (S.SourcePort.Spot.held under.old.front.sport) (S.SourcePort.Spot.value header.now) }
    ensures dport { label_place result.located.ports.destination ≡ best_label S.DestinationPort.Spot.kind.nest (S.DestinationPort.Spot.held under.old.front.dport) (S.DestinationPort.Spot.value header.now) }
    ensures protocol { label_place result.located.protocol ≡ best_label S.Protocol.Spot.kind.nest (S.Protocol.Spot.held under.old.front.protocol) (S.Protocol.Spot.value header.now) }
    ensures entry { result.entry ≡ screened (X.Screen.says under.old.screen) (T.KeyTable.map under.old.table) (key_of subset result.located) }
    ensures tally { T.KeyTable.tally under.new.table ≡ (if X.Screen.says under.old.screen (key_of subset result.located) then min (T.KeyTable.tally under.old.table + 1) 65535 else T.KeyTable.tally under.old.table) }
{
    let located = under.front.locate(header);
    let key = key_of(subset, located);
    let entry = if under.screen.ask(key) {
        under.table.find(key)
    } else {
        None
    };
    Found { located, entry }
}
