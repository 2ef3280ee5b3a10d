//! Which variant a message is, by its type.

ghost use Rattle.std.specs.Prelude.{◌≡◌, ◌==◌};
ghost use Rattle.rt_dispatch.specs.Dispatch.{kind};

use crate::message::*;

impl RouteNetlinkMessage {
    /// Whether this is a `NewLink`.
    pub fn is_new_link(&self) -> bool
        ensures { result ≡ (kind self.now == 16) }
    {
        self.message_type() == RTM_NEWLINK
    }

    /// Whether this is a `DelLink`.
    pub fn is_del_link(&self) -> bool
        ensures { result ≡ (kind self.now == 17) }
    {
        self.message_type() == RTM_DELLINK
    }

    /// Whether this is a `GetLink`.
    pub fn is_get_link(&self) -> bool
        ensures { result ≡ (kind self.now == 18) }
    {
        self.message_type() == RTM_GETLINK
    }

    /// Whether this is a `SetLink`.
    pub fn is_set_link(&self) -> bool
        ensures { result ≡ (kind self.now == 19) }
    {
        self.message_type() == RTM_SETLINK
    }

    /// Whether this is a `NewAddress`.
    pub fn is_new_address(&self) -> bool
        ensures { result ≡ (kind self.now == 20) }
    {
        self.message_type() == RTM_NEWADDR
    }

    /// Whether this is a `DelAddress`.
    pub fn is_del_address(&self) -> bool
        ensures { result ≡ (kind self.now == 21) }
    {
        self.message_type() == RTM_DELADDR
    }

    /// Whether this is a `GetAddress`.
    pub fn is_get_address(&self) -> bool
        ensures { result ≡ (kind self.now == 22) }
    {
        self.message_type() == RTM_GETADDR
    }

    /// Whether this is a `NewRoute`.
    pub fn is_new_route(&self) -> bool
        ensures { result ≡ (kind self.now == 24) }
    {
        self.message_type() == RTM_NEWROUTE
    }

    /// Whether this is a `DelRoute`.
    pub fn is_del_route(&self) -> bool
        ensures { result ≡ (kind self.now == 25) }
    {
        self.message_type() == RTM_DELROUTE
    }

    /// Whether this is a `GetRoute`.
    pub fn is_get_route(&self) -> bool
        ensures { result ≡ (kind self.now == 26) }
    {
        self.message_type() == RTM_GETROUTE
    }

    /// Whether this is a `NewNeighbour`.
    pub fn is_new_neighbour(&self) -> bool
        ensures { result ≡ (kind self.now == 28) }
    {
        self.message_type() == RTM_NEWNEIGH
    }

    /// Whether this is a `DelNeighbour`.
    pub fn is_del_neighbour(&self) -> bool
        ensures { result ≡ (kind self.now == 29) }
    {
        self.message_type() == RTM_DELNEIGH
    }

    /// Whether this is a `GetNeighbour`.
    pub fn is_get_neighbour(&self) -> bool
        ensures { result ≡ (kind self.now == 30) }
    {
        self.message_type() == RTM_GETNEIGH
    }

    /// Whether this is a `NewRule`.
    pub fn is_new_rule(&self) -> bool
        ensures { result ≡ (kind self.now == 32) }
    {
        self.message_type() == RTM_NEWRULE
    }

    /// Whether this is a `DelRule`.
    pub fn is_del_rule(&self) -> bool
        ensures { result ≡ (kind self.now == 33) }
    {
        self.message_type() == RTM_DELRULE
    }

    /// Whether this is a `GetRule`.
    pub fn is_get_rule(&self) -> bool
        ensures { result ≡ (kind self.now == 34) }
    {
        self.message_type() == RTM_GETRULE
    }

    /// Whether this is a `NewQueueDiscipline`.
    pub fn is_new_qdisc(&self) -> bool
        ensures { result ≡ (kind self.now == 36) }
    {
        self.message_type() == RTM_NEWQDISC
    }

    /// Whether this is a `DelQueueDiscipline`.
    pub fn is_del_qdisc(&self) -> bool
        ensures { result ≡ (kind self.now == 37) }
    {
        self.message_type() == RTM_DELQDISC
    }

    /// Whether this is a `GetQueueDiscipline`.
    pub fn is_get_qdisc(&self) -> bool
        ensures { result ≡ (kind self.now == 38) }
    {
        self.message_type() == RTM_GETQDISC
    }

    /// Whether this is a `NewTrafficClass`.
    pub fn is_new_class(&self) -> bool
        ensures { result ≡ (kind self.now == 40) }
    {
        self.message_type() == RTM_NEWTCLASS
    }

    /// Whether this is a `DelTrafficClass`.
    pub fn is_del_class(&self) -> bool
        ensures { result ≡ (kind self.now == 41) }
    {
        self.message_type() == RTM_DELTCLASS
    }

    /// Whether this is a `GetTrafficClass`.
    pub fn is_get_class(&self) -> bool
        ensures { result ≡ (kind self.now == 42) }
    {
        self.message_type() == RTM_GETTCLASS
    }

    /// Whether this is a `NewTrafficFilter`.
    pub fn is_new_filter(&self) -> bool
        ensures { result ≡ (kind self.now == 44) }
    {
        self.message_type() == RTM_NEWTFILTER
    }

    /// Whether this is a `DelTrafficFilter`.
    pub fn is_del_filter(&self) -> bool
        ensures { result ≡ (kind self.now == 45) }
    {
        self.message_type() == RTM_DELTFILTER
    }

    /// Whether this is a `GetTrafficFilter`.
    pub fn is_get_filter(&self) -> bool
        ensures { result ≡ (kind self.now == 46) }
    {
        self.message_type() == RTM_GETTFILTER
    }

    /// Whether this is a `NewTrafficAction`.
    pub fn is_new_action(&self) -> bool
        ensures { result ≡ (kind self.now == 48) }
    {
        self.message_type() == RTM_NEWACTION
    }

    /// Whether this is a `DelTrafficAction`.
    pub fn is_del_action(&self) -> bool
        ensures { result ≡ (kind self.now == 49) }
    {
        self.message_type() == RTM_DELACTION
    }

    /// Whether this is a `GetTrafficAction`.
    pub fn is_get_action(&self) -> bool
        ensures { result ≡ (kind self.now == 50) }
    {
        self.message_type() == RTM_GETACTION
    }

    /// Whether this is a `NewNeighbourTable`.
    pub fn is_new_neighbour_table(&self) -> bool
        ensures { result ≡ (kind self.now == 64) }
    {
        self.message_type() == RTM_NEWNEIGHTBL
    }

    /// Whether this is a `GetNeighbourTable`.
    pub fn is_get_neighbour_table(&self) -> bool
        ensures { result ≡ (kind self.now == 66) }
    {
        self.message_type() == RTM_GETNEIGHTBL
    }

    /// Whether this is a `SetNeighbourTable`.
    pub fn is_set_neighbour_table(&self) -> bool
        ensures { result ≡ (kind self.now == 67) }
    {
        self.message_type() == RTM_SETNEIGHTBL
    }

    /// Whether this is a `NewAddrLabel`.
    pub fn is_new_addr_label(&self) -> bool
        ensures { result ≡ (kind self.now == 72) }
    {
        self.message_type() == RTM_NEWADDRLABEL
    }

    /// Whether this is a `DelAddrLabel`.
    pub fn is_del_addr_label(&self) -> bool
        ensures { result ≡ (kind self.now == 73) }
    {
        self.message_type() == RTM_DELADDRLABEL
    }

    /// Whether this is a `GetAddrLabel`.
    pub fn is_get_addr_label(&self) -> bool
        ensures { result ≡ (kind self.now == 74) }
    {
        self.message_type() == RTM_GETADDRLABEL
    }

    /// Whether this is a `NewNsId`.
    pub fn is_new_nsid(&self) -> bool
        ensures { result ≡ (kind self.now == 88) }
    {
        self.message_type() == RTM_NEWNSID
    }

    /// Whether this is a `DelNsId`.
    pub fn is_del_nsid(&self) -> bool
        ensures { result ≡ (kind self.now == 89) }
    {
        self.message_type() == RTM_DELNSID
    }

    /// Whether this is a `GetNsId`.
    pub fn is_get_nsid(&self) -> bool
        ensures { result ≡ (kind self.now == 90) }
    {
        self.message_type() == RTM_GETNSID
    }

    /// Whether this is a `NewStats`.
    pub fn is_new_stats(&self) -> bool
        ensures { result ≡ (kind self.now == 92) }
    {
        self.message_type() == RTM_NEWSTATS
    }

    /// Whether this is a `GetStats`.
    pub fn is_get_stats(&self) -> bool
        ensures { result ≡ (kind self.now == 94) }
    {
        self.message_type() == RTM_GETSTATS
    }

    /// Whether this is a `NewTrafficChain`.
    pub fn is_new_chain(&self) -> bool
        ensures { result ≡ (kind self.now == 100) }
    {
        self.message_type() == RTM_NEWCHAIN
    }

    /// Whether this is a `DelTrafficChain`.
    pub fn is_del_chain(&self) -> bool
        ensures { result ≡ (kind self.now == 101) }
    {
        self.message_type() == RTM_DELCHAIN
    }

    /// Whether this is a `GetTrafficChain`.
    pub fn is_get_chain(&self) -> bool
        ensures { result ≡ (kind self.now == 102) }
    {
        self.message_type() == RTM_GETCHAIN
    }
}
